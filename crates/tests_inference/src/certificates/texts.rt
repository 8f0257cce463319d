// Programs and their certificates.

pub(crate) const MAIN: &str = r#"fun main (x : int) : int = tick 3 in x"#;

pub(crate) const MAIN_CERTIFICATE: &str =
    r#"{"blocks":[{"budget":0,"function":0,"group":0,"hints":[[]],"kind":"free","sigs":[[[[0,"1"]],[[0,"1"]]]],"target":0},{"group":0,"hints":[[]],"kind":"ticks","sigs":[[[[0,"3"]],[]]]},{"group":0,"hints":[[]],"kind":"cells","sigs":[[[],[]]]}],"degree":1,"scale":{"cells":"1","ticks":"1"},"version":1}"#;

pub(crate) const CALL: &str = r#"fun one (x : int) : int = tick 2 in x
fun two (x : int) : int = one(x)"#;

pub(crate) const CALL_CERTIFICATE: &str =
    r#"{"blocks":[{"budget":0,"function":0,"group":0,"hints":[[]],"kind":"free","sigs":[[[[0,"1"]],[[0,"1"]]]],"target":0},{"group":0,"hints":[[]],"kind":"ticks","sigs":[[[[0,"2"]],[]]]},{"group":0,"hints":[[]],"kind":"cells","sigs":[[[],[]]]},{"budget":0,"function":1,"group":1,"hints":[[{"call":[[0,"1"]]}]],"kind":"free","sigs":[[[[0,"1"]],[[0,"1"]]]],"target":0},{"group":1,"hints":[[{"call":[]}]],"kind":"ticks","sigs":[[[[0,"2"]],[]]]},{"group":1,"hints":[[{"call":[]}]],"kind":"cells","sigs":[[[],[]]]}],"degree":1,"scale":{"cells":"2","ticks":"1"},"version":1}"#;

pub(crate) const APPEND: &str = r#"fun append (x : int list, y : int list) : int list =
  match x with nil -> y | h :: t -> h :: append(t, y)"#;

pub(crate) const APPEND_CERTIFICATE: &str =
    r#"{"blocks":[{"budget":0,"function":0,"group":0,"hints":[[{"let":[[[0,"1"]]]},{"call":[]}]],"kind":"free","sigs":[[[[0,"1"]],[[0,"1"]]]],"target":0},{"budget":1,"function":0,"group":0,"hints":[[{"let":[[[0,"1"],[1,"1"]]]},{"call":[[0,"1"]]}]],"kind":"free","sigs":[[[[1,"1"],[2,"1"]],[[1,"1"]]]],"target":1},{"group":0,"hints":[[{"let":[[]]},{"call":[]}]],"kind":"ticks","sigs":[[[],[]]]},{"group":0,"hints":[[{"let":[[[0,"1"]]]},{"call":[[0,"1"]]}]],"kind":"cells","sigs":[[[[2,"1"]],[]]]}],"degree":1,"scale":{"cells":"1","ticks":"1"},"version":1}"#;

// All triples of a list.
pub(crate) const TRIPLES: &str = "\
(* all triples of a list in order: a bound of degree 3 *)
fun with_two (a : int, b : int, l : int list, acc : (int * (int * int)) list) : (int * (int * int)) list =
  match l with nil -> acc | c :: t -> tick 1 in (a, (b, c)) :: with_two(a, b, t, acc)
fun with_one (a : int, l : int list, acc : (int * (int * int)) list) : (int * (int * int)) list =
  match l with nil -> acc | b :: t -> with_two(a, b, t, with_one(a, t, acc))
fun triples (l : int list) : (int * (int * int)) list =
  match l with nil -> nil | a :: t -> with_one(a, t, triples(t))";

pub(crate) const TRIPLES_CERTIFICATE: &str =
    r#"{"blocks":[{"budget":0,"function":0,"group":0,"hints":[[{"share":[[0,"1"]]},{"share":[[0,"1"]]},{"let":[[[0,"1"]]]},{"let":[[[0,"1"]]]},{"let":[[[0,"1"]]]},{"call":[]}]],"kind":"free","sigs":[[[[0,"1"]],[[0,"1"]]]],"target":0},{"budget":1,"function":0,"group":0,"hints":[[{"share":[[0,"1"],[1,"1"],[2,"1"]]},{"share":[[0,"1"],[1,"1"],[2,"1"]]},{"let":[[[0,"1"]],[[0,"1"]],[[0,"1"]]]},{"let":[[[0,"1"]]]},{"let":[[[0,"1"]]]},{"let":[[[0,"1"]]]},{"let":[[[0,"1"],[1,"1"]]]},{"call":[[0,"1"]]}]],"kind":"free","sigs":[[[[1,"1"],[2,"1"]],[[1,"1"]]]],"target":1},{"group":0,"hints":[[{"share":[[2,"1"]]},{"share":[[2,"1"]]},{"let":[[],[],[[0,"1"]]]},{"let":[[]]},{"let":[[]]},{"let":[[[0,"1"]]]},{"let":[[]]},{"call":[]}]],"kind":"ticks","sigs":[[[[2,"1"]],[]]]},{"group":0,"hints":[[{"share":[[0,"3"],[2,"3"]]},{"share":[[0,"3"],[2,"3"]]},{"let":[[[0,"1"]],[],[[0,"3"]]]},{"let":[[[0,"2"]]]},{"let":[[]]},{"let":[[[0,"3"]]]},{"let":[[[0,"1"]]]},{"call":[[0,"1"]]}]],"kind":"cells","sigs":[[[[2,"3"]],[]]]},{"group":0,"hints":[[{"share":[[0,"14"],[2,"14"]]},{"share":[[0,"14"],[2,"14"]]},{"let":[[[0,"8"]],[],[[0,"14"]]]},{"let":[[[0,"8"]]]},{"let":[[]]},{"let":[[[0,"14"]]]},{"let":[[]]},{"call":[]}]],"kind":"work","sigs":[[[[0,"4"],[2,"14"]],[]]]},{"budget":0,"function":1,"group":1,"hints":[[{"share":[[0,"1"]]},{"share":[[0,"1"]]},{"let":[[[0,"1"]]]},{"call":[]},{"call":[[0,"1"]]}]],"kind":"free","sigs":[[[[0,"1"]],[[0,"1"]]]],"target":0},{"budget":1,"farkas":[[0,"1"],[5,"1"],[8,"1"],[11,"1"],[14,"1"],[15,"1"],[18,"1"],[20,"1"]],"function":1,"group":1,"kind":"free","target":1},{"farkas":[[4,"1"],[7,"1"],[10,"1"],[13,"1"],[14,"1"],[17,"1"]],"group":1,"kind":"ticks"},{"farkas":[[4,"1"],[7,"1"],[10,"1"],[13,"1"],[14,"1"],[17,"1"]],"group":1,"kind":"cells"},{"farkas":[[6,"1"],[9,"1"],[14,"1"],[17,"1"],[18,"1"],[21,"1"]],"group":1,"kind":"work"},{"budget":0,"function":2,"group":2,"hints":[[{"share":[[0,"1"]]},{"let":[[[0,"1"]]]},{"call":[]},{"call":[[5,"1"]]}]],"kind":"free","sigs":[[[[0,"1"]],[[0,"1"]]]],"target":0},{"budget":1,"farkas":[[0,"1"],[12,"1"]],"function":2,"group":2,"kind":"free","target":1},{"calls":1,"group":2,"kind":"ticks"},{"calls":1,"group":2,"kind":"cells"},{"calls":1,"group":2,"kind":"work"}],"degree":1,"scale":{"cells":"1","ticks":"1","work":"1"},"version":2}"#;

// A function of thirteen lists.
pub(crate) const BIG: &str =
    "fun big (x : int list * int list * int list * int list * int list * int list * int list * int list * int list * int list * int list * int list * int list) : int = 0";

// Its blocks for ticks and cells are refuted, so nothing is walked.
pub(crate) const BIG_CERTIFICATE: &str =
    r#"{"blocks":[{"budget":0,"function":0,"group":0,"hints":[[]],"kind":"free","sigs":[[[[0,"1"]],[[0,"1"]]]],"target":0},{"farkas":[],"group":0,"kind":"ticks"},{"farkas":[],"group":0,"kind":"cells"}],"degree":4,"scale":{"cells":"1","ticks":"1"},"version":1}"#;
