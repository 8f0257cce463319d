//! The texts of programs whose normal forms are compared.

/// The append of two lists, and two ways to append three.
pub const APPENDS: &str = "\
(* append of two lists, and two ways to append three *)
fun append (x : int list, y : int list) : int list =
  match x with nil -> y | h :: t -> h :: append(t, y)
fun leftmost (x : int list, y : int list, z : int list) : int list =
  append(append(x, y), z)
fun rightmost (x : int list, y : int list, z : int list) : int list =
  append(x, append(y, z))";

/// The ends of a list, and its least element, each with an option.
pub const ENDS: &str = "\
(* head, last and least element, each with an option *)
fun head (l : int list) : int option = match l with nil -> none | h :: t -> some(h)
fun last (l : int list) : int option =
  match l with
    nil -> none
  | h :: t -> match t with nil -> some(h) | k :: u -> tick 1 in last(t)
fun least (l : int list) : int option =
  match l with
    nil -> none
  | h :: t ->
      match least(t) with
        none -> some(h)
      | some(m) -> if h < m then some(h) else some(m)
fun sum_ends (l : int list) : int =
  match head(l) with
    none -> 0
  | some(a) -> match last(l) with none -> a | some(b) -> a + b";

/// Functions that call each other.
pub const PING_PONG: &str = "\
(* mutual recursion: even and odd length, and a rally that pays at every second turn *)
fun even (l : int list) : bool = match l with nil -> true | h :: t -> odd(t)
fun odd (l : int list) : bool = match l with nil -> false | h :: t -> even(t)
fun ping (l : int list) : int = match l with nil -> 0 | h :: t -> tick 1 in pong(t) + 1
fun pong (l : int list) : int = match l with nil -> 0 | h :: t -> ping(t)
fun rally (l : int list) : int = if even(l) then ping(l) else pong(l)";

/// A sort by parts, with three ticks an element of a partition.
pub const QUICKSORT: &str = "\
(* quicksort with a partition that costs three ticks per element *)
fun append (x : int list, y : int list) : int list =
  match x with nil -> y | h :: t -> h :: append(t, y)
fun part (p : int, l : int list) : int list * int list =
  match l with
    nil -> (nil, nil)
  | h :: t ->
      let (low, high) = part(p, t) in
      tick 3 in
      if h < p then (h :: low, high) else (low, h :: high)
fun qsort (l : int list) : int list =
  match l with
    nil -> nil
  | h :: t -> let (low, high) = part(h, t) in append(qsort(low), h :: qsort(high))";

/// A sort by search trees.
pub const SEARCH_TREE: &str = "\
(* binary search tree: insertion, a tree from a list, look-up, sorting by a tree *)
fun add (x : int, t : int tree) : int tree =
  match t with
    leaf -> node(x, leaf, leaf)
  | node(a, l, r) ->
      tick 1 in
      if x = a then node(a, l, r)
      else if x < a then node(a, add(x, l), r)
      else node(a, l, add(x, r))
fun build (l : int list, t : int tree) : int tree =
  match l with nil -> t | h :: rest -> build(rest, add(h, t))
fun member (x : int, t : int tree) : bool =
  match t with
    leaf -> false
  | node(a, l, r) ->
      if x = a then true else tick 1 in if x < a then member(x, l) else member(x, r)
fun walk (t : int tree, acc : int list) : int list =
  match t with leaf -> acc | node(a, l, r) -> walk(l, a :: walk(r, acc))
fun tree_sort (l : int list) : int list = walk(build(l, leaf), nil)";

/// A variable that is used many times.
pub const SHARING: &str = "\
(* a variable used many times: each use is a copy of its potential *)
fun length (l : int list) : int = match l with nil -> 0 | h :: t -> tick 1 in 1 + length(t)
fun sum (l : int list) : int = match l with nil -> 0 | h :: t -> tick 1 in h + sum(t)
fun mean (l : int list) : int = sum(l) div length(l)
fun square (l : int list, m : int list) : int list =
  match m with nil -> nil | h :: t -> length(l) :: square(l, t)
fun self (l : int list) : int list = square(l, l)
fun four (l : int list) : int = length(l) + length(l) + length(l) + length(l)
fun triple (l : int list) : int list * (int list * int list) = (l, (l, l))";

/// All triples of a list.
pub const TRIPLES: &str = "\
(* all triples of a list in order: a bound of degree 3 *)
fun with_two (a : int, b : int, l : int list, acc : (int * (int * int)) list) : (int * (int * int)) list =
  match l with nil -> acc | c :: t -> tick 1 in (a, (b, c)) :: with_two(a, b, t, acc)
fun with_one (a : int, l : int list, acc : (int * (int * int)) list) : (int * (int * int)) list =
  match l with nil -> acc | b :: t -> with_two(a, b, t, with_one(a, t, acc))
fun triples (l : int list) : (int * (int * int)) list =
  match l with nil -> nil | a :: t -> with_one(a, t, triples(t))";

/// Two lists as one of pairs, and back.
pub const ZIPS: &str = "\
(* zip, unzip and their round trip *)
fun zip (x : int list, y : bool list) : (int * bool) list =
  match x with
    nil -> nil
  | a :: t -> match y with nil -> nil | b :: u -> (a, b) :: zip(t, u)
fun unzip (l : (int * bool) list) : int list * bool list =
  match l with
    nil -> (nil, nil)
  | p :: t ->
      let (a, b) = p in
      let (x, y) = unzip(t) in
      tick 1 in (a :: x, b :: y)
fun round_trip (x : int list, y : bool list) : (int * bool) list =
  let (a, b) = unzip(zip(x, y)) in zip(a, b)";
