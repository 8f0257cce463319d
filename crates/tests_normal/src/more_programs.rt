// More programs with the normal forms of their functions, one a line. Variables are shown by the order in which
// they come first, and the nodes of a form behind it.

use crate::texts;

pub const MERGE_SORT: (&str, &str) = (
    "\
(* merge sort: split by turns, sort both halves, merge *)
fun split (l : int list) : int list * int list =
  match l with
    nil -> (nil, nil)
  | a :: t -> match t with
      nil -> (a :: nil, nil)
    | b :: u -> tick 1 in let (x, y) = split(u) in (a :: x, b :: y)
fun merge (x : int list, y : int list) : int list =
  match x with
    nil -> y
  | a :: t -> match y with
      nil -> a :: t
    | b :: u -> tick 1 in if a <= b then a :: merge(t, b :: u) else b :: merge(a :: t, u)
fun msort (l : int list) : int list =
  match l with
    nil -> nil
  | a :: t -> match t with
      nil -> a :: nil
    | b :: u -> let (x, y) = split(l) in merge(msort(x), msort(y))",
    "\
split [v0]: CaseList(v0, Let(v1, Nil#1, Let(v2, Nil#1, Pair(v1, v2)))#1, v3, v4, CaseList(v4, Let(v5, Let(v6, Nil#1, Cons(v3, v6))#2, Let(v7, Nil#1, Pair(v5, v7)))#1, v8, v9, Tick(1, Let(v10, Call 0[v9]#2, Split(v10, v11, v12, Let(v13, Cons(v3, v11)#3, Let(v14, Cons(v8, v12)#3, Pair(v13, v14)))#1))#1)#1)#2)#3
merge [v0, v1]: CaseList(v0, Var v1#1, v2, v3, CaseList(v1, Cons(v2, v3)#3, v4, v5, Tick(1, Share(v2, v6, v7, Share(v4, v8, v9, Let(v10, Compare(AtMost, v6, v8)#3, If(v10, Let(v11, Let(v12, Cons(v9, v5)#3, Call 1[v3, v12])#2, Cons(v7, v11))#2, Let(v13, Let(v14, Cons(v7, v3)#3, Call 1[v14, v5])#2, Cons(v9, v13))#2))#1)))#1)#2)#3
msort [v0]: Share(v0, v1, v2, CaseList(v1, Drop(v2, Nil#1), v3, v4, CaseList(v4, Drop(v2, Let(v5, Nil#1, Cons(v3, v5))#2), v6, v7, Drop(v3, Drop(v6, Drop(v7, Let(v8, Call 0[v2]#2, Split(v8, v9, v10, Let(v11, Call 2[v9]#2, Let(v12, Call 2[v10]#2, Call 1[v11, v12]))#1))#1))))#2)#3)
",
);

pub const PID_CONTROLLER: (&str, &str) = (
    "\
(* controller: PID steps over a list of samples with a state of nested pairs *)
fun clamp (low : int, high : int, x : int) : int =
  if x < low then low else if high < x then high else x
fun pid_step (gains : int * (int * int), state : int * int, error : int) : int * (int * int) =
  let (kp, rest) = gains in
  let (ki, kd) = rest in
  let (sum, last) = state in
  let sum = clamp(0 - 1000, 1000, sum + error) in
  let slope = error - last in
  let out = (kp * error + ki * sum + kd * slope) div 16 in
  (clamp(0 - 100, 100, out), (sum, error))
fun drive (target : int, gains : int * (int * int), state : int * int, samples : int list) : int list =
  match samples with
    nil -> nil
  | s :: more ->
      let (out, next) = pid_step(gains, state, target - s) in
      tick 12 in out :: drive(target, gains, next, more)
fun control (target : int, samples : int list) : int list =
  drive(target, (16, (2, 8)), (0, 0), samples)",
    "\
clamp [v0, v1, v2]: Share(v0, v3, v4, Share(v2, v5, v6, Let(v7, Compare(Less, v5, v3)#3, If(v7, Drop(v1, Drop(v6, Var v4#1)), Drop(v4, Share(v1, v8, v9, Share(v6, v10, v11, Let(v12, Compare(Less, v8, v10)#3, If(v12, Drop(v11, Var v9#1), Drop(v9, Var v11#1)))#1)))))#2))
pid_step [v0, v1, v2]: Split(v0, v3, v4, Split(v4, v5, v6, Split(v1, v7, v8, Share(v2, v9, v10, Let(v11, Let(v12, Let(v13, Number(0)#1, Let(v14, Number(1000)#1, Arith(Sub, v13, v14)))#1, Let(v15, Number(1000)#1, Let(v16, Arith(Add, v7, v9)#3, Call 0[v12, v15, v16])))#1, Share(v10, v17, v18, Let(v19, Arith(Sub, v17, v8)#3, Share(v18, v20, v21, Share(v11, v22, v23, Let(v24, Let(v25, Let(v26, Let(v27, Arith(Mul, v3, v20)#3, Let(v28, Arith(Mul, v5, v22)#3, Arith(Add, v27, v28)))#1, Let(v29, Arith(Mul, v6, v19)#3, Arith(Add, v26, v29)))#1, Let(v30, Number(16)#1, Arith(Div, v25, v30)))#1, Let(v31, Let(v32, Let(v33, Number(0)#1, Let(v34, Number(100)#1, Arith(Sub, v33, v34)))#1, Let(v35, Number(100)#1, Call 0[v32, v35, v24]))#2, Let(v36, Pair(v23, v21)#3, Pair(v31, v36)))#1)#1)))#1))#1))#2)#2)#3
drive [v0, v1, v2, v3]: CaseList(v3, Drop(v0, Drop(v1, Drop(v2, Nil#1))), v4, v5, Share(v0, v6, v7, Share(v1, v8, v9, Let(v10, Let(v11, Arith(Sub, v6, v4)#3, Call 1[v8, v2, v11])#3, Split(v10, v12, v13, Tick(12, Let(v14, Call 2[v7, v9, v13, v5]#5, Cons(v12, v14))#2)#1))#1)))#3
control [v0, v1]: Let(v2, Let(v3, Number(16)#1, Let(v4, Let(v5, Number(2)#1, Let(v6, Number(8)#1, Pair(v5, v6)))#1, Pair(v3, v4)))#1, Let(v7, Let(v8, Number(0)#1, Let(v9, Number(0)#1, Pair(v8, v9)))#1, Call 2[v0, v2, v7, v1]))#4
",
);

pub const PING_PONG: (&str, &str) = (
    texts::PING_PONG,
    "\
even [v0]: CaseList(v0, Truth(true)#1, v1, v2, Drop(v1, Call 1[v2]#2))#3
odd [v0]: CaseList(v0, Truth(false)#1, v1, v2, Drop(v1, Call 0[v2]#2))#3
ping [v0]: CaseList(v0, Number(0)#1, v1, v2, Drop(v1, Tick(1, Let(v3, Call 3[v2]#2, Let(v4, Number(1)#1, Arith(Add, v3, v4)))#1)#1))#3
pong [v0]: CaseList(v0, Number(0)#1, v1, v2, Drop(v1, Call 2[v2]#2))#3
rally [v0]: Share(v0, v1, v2, Let(v3, Call 0[v1]#2, If(v3, Call 2[v2]#2, Call 3[v2]#2))#2)
",
);

pub const QUICKSORT: (&str, &str) = (
    texts::QUICKSORT,
    "\
append [v0, v1]: CaseList(v0, Var v1#1, v2, v3, Let(v4, Call 0[v3, v1]#3, Cons(v2, v4))#2)#3
part [v0, v1]: CaseList(v1, Drop(v0, Let(v2, Nil#1, Let(v3, Nil#1, Pair(v2, v3)))#1), v4, v5, Share(v0, v6, v7, Let(v8, Call 1[v6, v5]#3, Split(v8, v9, v10, Tick(3, Share(v4, v11, v12, Let(v13, Compare(Less, v11, v7)#3, If(v13, Let(v14, Cons(v12, v9)#3, Pair(v14, v10))#2, Let(v15, Cons(v12, v10)#3, Pair(v9, v15))#2))#1))#1))#1))#3
qsort [v0]: CaseList(v0, Nil#1, v1, v2, Share(v1, v3, v4, Let(v5, Call 1[v3, v2]#3, Split(v5, v6, v7, Let(v8, Call 2[v6]#2, Let(v9, Let(v10, Call 2[v7]#2, Cons(v4, v10))#2, Call 0[v8, v9]))#1))#1))#3
",
);

pub const REVERSE: (&str, &str) = (
    "\
(* reverse with an accumulator, and the naive one by appends *)
fun onto (x : int list, acc : int list) : int list =
  match x with nil -> acc | h :: t -> tick 1 in onto(t, h :: acc)
fun reverse (x : int list) : int list = onto(x, nil)
fun append (x : int list, y : int list) : int list =
  match x with nil -> y | h :: t -> tick 1 in h :: append(t, y)
fun naive (x : int list) : int list =
  match x with nil -> nil | h :: t -> append(naive(t), h :: nil)
fun same (x : int list, y : int list) : bool =
  match x with
    nil -> (match y with nil -> true | b :: u -> false)
  | a :: t -> match y with nil -> false | b :: u -> if a = b then same(t, u) else false
fun agree (x : int list) : bool = same(reverse(x), naive(x))",
    "\
onto [v0, v1]: CaseList(v0, Var v1#1, v2, v3, Tick(1, Let(v4, Cons(v2, v1)#3, Call 0[v3, v4])#2)#1)#3
reverse [v0]: Let(v1, Nil#1, Call 0[v0, v1])#3
append [v0, v1]: CaseList(v0, Var v1#1, v2, v3, Tick(1, Let(v4, Call 2[v3, v1]#3, Cons(v2, v4))#2)#1)#3
naive [v0]: CaseList(v0, Nil#1, v1, v2, Let(v3, Call 3[v2]#2, Let(v4, Let(v5, Nil#1, Cons(v1, v5))#2, Call 2[v3, v4]))#1)#3
same [v0, v1]: CaseList(v0, CaseList(v1, Truth(true)#1, v2, v3, Drop(v2, Drop(v3, Truth(false)#1)))#2, v4, v5, CaseList(v1, Drop(v4, Drop(v5, Truth(false)#1)), v6, v7, Let(v8, Compare(Equal, v4, v6)#3, If(v8, Call 4[v5, v7]#3, Drop(v5, Drop(v7, Truth(false)#1))))#1)#2)#3
agree [v0]: Share(v0, v1, v2, Let(v3, Call 1[v1]#2, Let(v4, Call 3[v2]#2, Call 4[v3, v4]))#2)
",
);

pub const RUN_LENGTH: (&str, &str) = (
    "\
(* run-length coding and its inverse, whose cost has no bound in the size of the code *)
fun extend (x : int, n : int, l : int list) : (int * int) list =
  match l with
    nil -> (x, n) :: nil
  | h :: t -> if h = x then extend(x, n + 1, t) else (x, n) :: extend(h, 1, t)
fun encode (l : int list) : (int * int) list =
  match l with nil -> nil | h :: t -> extend(h, 1, t)
fun repeat (x : int, n : int, rest : int list) : int list =
  if n <= 0 then rest else x :: repeat(x, n - 1, rest)
fun decode (l : (int * int) list) : int list =
  match l with nil -> nil | p :: t -> let (x, n) = p in repeat(x, n, decode(t))",
    "\
extend [v0, v1, v2]: CaseList(v2, Let(v3, Pair(v0, v1)#3, Let(v4, Nil#1, Cons(v3, v4)))#1, v5, v6, Share(v0, v7, v8, Share(v5, v9, v10, Let(v11, Compare(Equal, v9, v7)#3, If(v11, Drop(v10, Let(v12, Let(v13, Number(1)#1, Arith(Add, v1, v13))#2, Call 0[v8, v12, v6])#3), Let(v14, Pair(v8, v1)#3, Let(v15, Let(v16, Number(1)#1, Call 0[v10, v16, v6])#3, Cons(v14, v15)))#1))#1)))#3
encode [v0]: CaseList(v0, Nil#1, v1, v2, Let(v3, Number(1)#1, Call 0[v1, v3, v2])#3)#3
repeat [v0, v1, v2]: Share(v1, v3, v4, Let(v5, Let(v6, Number(0)#1, Compare(AtMost, v3, v6))#2, If(v5, Drop(v0, Drop(v4, Var v2#1)), Share(v0, v7, v8, Let(v9, Let(v10, Let(v11, Number(1)#1, Arith(Sub, v4, v11))#2, Call 2[v7, v10, v2])#3, Cons(v8, v9))#2)))#2)
decode [v0]: CaseList(v0, Nil#1, v1, v2, Split(v1, v3, v4, Let(v5, Call 3[v2]#2, Call 2[v3, v4, v5])#3)#2)#3
",
);

pub const SAFE_HEAD_OPTION: (&str, &str) = (
    texts::ENDS,
    "\
head [v0]: CaseList(v0, None#1, v1, v2, Drop(v2, Some(v1)#2))#3
last [v0]: CaseList(v0, None#1, v1, v2, Share(v2, v3, v4, CaseList(v3, Drop(v4, Some(v1)#2), v5, v6, Drop(v1, Drop(v5, Drop(v6, Tick(1, Call 1[v4]#2)#1))))#2))#3
least [v0]: CaseList(v0, None#1, v1, v2, Let(v3, Call 2[v2]#2, CaseOption(v3, Some(v1)#2, v4, Share(v1, v5, v6, Share(v4, v7, v8, Let(v9, Compare(Less, v5, v7)#3, If(v9, Drop(v8, Some(v6)#2), Drop(v6, Some(v8)#2)))#1))))#1)#3
sum_ends [v0]: Share(v0, v1, v2, Let(v3, Call 0[v1]#2, CaseOption(v3, Drop(v2, Number(0)#1), v4, Let(v5, Call 1[v2]#2, CaseOption(v5, Var v4#1, v6, Arith(Add, v4, v6)#3))#1))#2)
",
);

pub const SEARCH_TREE: (&str, &str) = (
    texts::SEARCH_TREE,
    "\
add [v0, v1]: CaseTree(v1, Let(v2, Leaf#1, Let(v3, Leaf#1, Node(v0, v2, v3)))#2, v4, v5, v6, Tick(1, Share(v0, v7, v8, Share(v4, v9, v10, Let(v11, Compare(Equal, v7, v9)#3, If(v11, Drop(v8, Node(v10, v5, v6)#4), Share(v8, v12, v13, Share(v10, v14, v15, Let(v16, Compare(Less, v12, v14)#3, If(v16, Let(v17, Call 0[v13, v5]#3, Node(v15, v17, v6))#3, Let(v18, Call 0[v13, v6]#3, Node(v15, v5, v18))#3))#1))))#1)))#1)#3
build [v0, v1]: CaseList(v0, Var v1#1, v2, v3, Let(v4, Call 0[v2, v1]#3, Call 1[v3, v4])#2)#3
member [v0, v1]: CaseTree(v1, Drop(v0, Truth(false)#1), v2, v3, v4, Share(v0, v5, v6, Share(v2, v7, v8, Let(v9, Compare(Equal, v5, v7)#3, If(v9, Drop(v6, Drop(v8, Drop(v3, Drop(v4, Truth(true)#1)))), Tick(1, Share(v6, v10, v11, Let(v12, Compare(Less, v10, v8)#3, If(v12, Drop(v4, Call 2[v11, v3]#3), Drop(v3, Call 2[v11, v4]#3)))#1))#1))#1)))#3
walk [v0, v1]: CaseTree(v0, Var v1#1, v2, v3, v4, Let(v5, Let(v6, Call 3[v4, v1]#3, Cons(v2, v6))#2, Call 3[v3, v5])#2)#3
tree_sort [v0]: Let(v1, Let(v2, Leaf#1, Call 1[v0, v2])#2, Let(v3, Nil#1, Call 3[v1, v3]))#2
",
);

pub const SELECTION_SORT: (&str, &str) = (
    "\
(* selection sort: take the least element out, sort what is left *)
fun pick (best : int, l : int list) : int * int list =
  match l with
    nil -> (best, nil)
  | h :: t ->
      tick 1 in
      if h < best
      then let (m, rest) = pick(h, t) in (m, best :: rest)
      else let (m, rest) = pick(best, t) in (m, h :: rest)
fun ssort (l : int list) : int list =
  match l with
    nil -> nil
  | h :: t -> let (m, rest) = pick(h, t) in m :: ssort(rest)",
    "\
pick [v0, v1]: CaseList(v1, Let(v2, Nil#1, Pair(v0, v2))#2, v3, v4, Tick(1, Share(v0, v5, v6, Share(v3, v7, v8, Let(v9, Compare(Less, v7, v5)#3, If(v9, Let(v10, Call 0[v8, v4]#3, Split(v10, v11, v12, Let(v13, Cons(v6, v12)#3, Pair(v11, v13))#2))#1, Let(v14, Call 0[v6, v4]#3, Split(v14, v15, v16, Let(v17, Cons(v8, v16)#3, Pair(v15, v17))#2))#1))#1)))#1)#3
ssort [v0]: CaseList(v0, Nil#1, v1, v2, Let(v3, Call 0[v1, v2]#3, Split(v3, v4, v5, Let(v6, Call 1[v5]#2, Cons(v4, v6))#2))#1)#3
",
);

pub const SHADOWING: (&str, &str) = (
    "\
(* shadowed names, unused parameters, deep lets and names with primes *)
fun f (x : int list, unused : int tree, y : int) : int =
  let x = y in
  let y = x + 1 in
  let x = y * 2 in
  let y = x - 3 in
  let x' = y in
  let x'' = x' + x in
  tick 4 in x'' * y
fun g (l : int list, l' : int list) : int =
  match l with
    nil -> 0
  | l :: l' -> match l' with nil -> l | h :: l' -> tick 1 in g(l', l')
fun h (h : int, t : int) : int = let (t, h) = (h, t) in t - h
fun main (l : int list) : int = let f = f(l, leaf, 5) in let g = g(l, l) in h(f, g)",
    "\
f [v0, v1, v2]: Drop(v0, Drop(v1, Let(v3, Var v2#1, Let(v4, Let(v5, Number(1)#1, Arith(Add, v3, v5))#2, Let(v6, Let(v7, Number(2)#1, Arith(Mul, v4, v7))#2, Share(v6, v8, v9, Let(v10, Let(v11, Number(3)#1, Arith(Sub, v8, v11))#2, Share(v10, v12, v13, Let(v14, Var v12#1, Let(v15, Arith(Add, v14, v9)#3, Tick(4, Arith(Mul, v15, v13)#3)#1)#1)#1))#1))#1)#1)#2))
g [v0, v1]: Drop(v1, CaseList(v0, Number(0)#1, v2, v3, CaseList(v3, Var v2#1, v4, v5, Drop(v2, Drop(v4, Tick(1, Share(v5, v6, v7, Call 1[v6, v7]#3))#1)))#2)#3)
h [v0, v1]: Let(v2, Pair(v0, v1)#3, Split(v2, v3, v4, Arith(Sub, v3, v4)#3))#2
main [v0]: Share(v0, v1, v2, Let(v3, Let(v4, Leaf#1, Let(v5, Number(5)#1, Call 0[v1, v4, v5]))#2, Let(v6, Share(v2, v7, v8, Call 1[v7, v8]#3), Call 2[v3, v6]#3)#1)#2)
",
);

pub const SHARING: (&str, &str) = (
    texts::SHARING,
    "\
length [v0]: CaseList(v0, Number(0)#1, v1, v2, Drop(v1, Tick(1, Let(v3, Number(1)#1, Let(v4, Call 0[v2]#2, Arith(Add, v3, v4)))#1)#1))#3
sum [v0]: CaseList(v0, Number(0)#1, v1, v2, Tick(1, Let(v3, Call 1[v2]#2, Arith(Add, v1, v3))#2)#1)#3
mean [v0]: Share(v0, v1, v2, Let(v3, Call 1[v1]#2, Let(v4, Call 0[v2]#2, Arith(Div, v3, v4)))#2)
square [v0, v1]: CaseList(v1, Drop(v0, Nil#1), v2, v3, Drop(v2, Share(v0, v4, v5, Let(v6, Call 0[v4]#2, Let(v7, Call 3[v5, v3]#3, Cons(v6, v7)))#1)))#3
self [v0]: Share(v0, v1, v2, Call 3[v1, v2]#4)
four [v0]: Share(v0, v1, v2, Let(v3, Share(v1, v4, v5, Let(v6, Share(v4, v7, v8, Let(v9, Call 0[v7]#2, Let(v10, Call 0[v8]#2, Arith(Add, v9, v10)))#1), Let(v11, Call 0[v5]#2, Arith(Add, v6, v11)))#1), Let(v12, Call 0[v2]#2, Arith(Add, v3, v12)))#2)
triple [v0]: Share(v0, v1, v2, Let(v3, Share(v1, v4, v5, Pair(v4, v5)#3), Pair(v2, v3))#3)
",
);

pub const SPIN_LOOPS: (&str, &str) = (
    "\
(* loops that never end: without ticks, with ticks, with cells, and behind a condition *)
fun idle (x : int) : int = idle(x + 1)
fun zero (x : int) : int = tick 0 in zero(x)
fun burn (x : int) : int = tick 2 in burn(x)
fun grow (l : int list) : int list = grow(0 :: l)
fun wait (x : int, l : int list) : int list = if x < 0 then nil else wait(x, l)
fun calls_burn (x : int) : int = 1 + burn(x)
fun calls_idle (x : int) : int = 1 + idle(x)",
    "\
idle [v0]: Let(v1, Let(v2, Number(1)#1, Arith(Add, v0, v2))#2, Call 0[v1])#2
zero [v0]: Tick(0, Call 1[v0]#2)#2
burn [v0]: Tick(2, Call 2[v0]#2)#2
grow [v0]: Let(v1, Let(v2, Number(0)#1, Cons(v2, v0))#2, Call 3[v1])#2
wait [v0, v1]: Share(v0, v2, v3, Let(v4, Let(v5, Number(0)#1, Compare(Less, v2, v5))#2, If(v4, Drop(v3, Drop(v1, Nil#1)), Call 4[v3, v1]#3))#2)
calls_burn [v0]: Let(v1, Number(1)#1, Let(v2, Call 2[v0]#2, Arith(Add, v1, v2)))#2
calls_idle [v0]: Let(v1, Number(1)#1, Let(v2, Call 0[v0]#2, Arith(Add, v1, v2)))#2
",
);

pub const TOKEN_LEDGER: (&str, &str) = (
    "\
(* metered contract: a ledger of balances and a list of transfers, gas per entry looked at *)
fun credit (who : int, sum : int, ledger : (int * int) list) : (int * int) list =
  match ledger with
    nil -> tick 20 in (who, sum) :: nil
  | entry :: rest ->
      let (name, balance) = entry in
      tick 3 in
      if name = who then (name, balance + sum) :: rest
      else entry :: credit(who, sum, rest)
fun balance_of (who : int, ledger : (int * int) list) : int =
  match ledger with
    nil -> 0
  | entry :: rest ->
      let (name, balance) = entry in
      tick 2 in if name = who then balance else balance_of(who, rest)
fun transfer (from : int, to : int, sum : int, ledger : (int * int) list) : (int * int) list =
  tick 10 in
  if sum < 0 then ledger
  else if balance_of(from, ledger) < sum then ledger
  else credit(to, sum, credit(from, 0 - sum, ledger))
fun supply (ledger : (int * int) list) : int =
  match ledger with nil -> 0 | entry :: rest -> let (name, balance) = entry in balance + supply(rest)
fun run_block (txs : (int * (int * int)) list, ledger : (int * int) list) : (int * int) list =
  match txs with
    nil -> ledger
  | tx :: more ->
      let (from, order) = tx in
      let (to, sum) = order in
      run_block(more, transfer(from, to, sum, ledger))",
    "\
credit [v0, v1, v2]: CaseList(v2, Tick(20, Let(v3, Pair(v0, v1)#3, Let(v4, Nil#1, Cons(v3, v4)))#1)#1, v5, v6, Share(v5, v7, v8, Split(v7, v9, v10, Tick(3, Share(v0, v11, v12, Share(v9, v13, v14, Let(v15, Compare(Equal, v13, v11)#3, If(v15, Drop(v12, Drop(v8, Let(v16, Let(v17, Arith(Add, v10, v1)#3, Pair(v14, v17))#2, Cons(v16, v6))#2)), Drop(v14, Drop(v10, Let(v18, Call 0[v12, v1, v6]#4, Cons(v8, v18))#2))))#1)))#1)#2))#3
balance_of [v0, v1]: CaseList(v1, Drop(v0, Number(0)#1), v2, v3, Split(v2, v4, v5, Tick(2, Share(v0, v6, v7, Let(v8, Compare(Equal, v4, v6)#3, If(v8, Drop(v7, Drop(v3, Var v5#1)), Drop(v5, Call 1[v7, v3]#3)))#1))#1)#2)#3
transfer [v0, v1, v2, v3]: Tick(10, Share(v2, v4, v5, Let(v6, Let(v7, Number(0)#1, Compare(Less, v4, v7))#2, If(v6, Drop(v0, Drop(v1, Drop(v5, Var v3#1))), Share(v0, v8, v9, Share(v5, v10, v11, Share(v3, v12, v13, Let(v14, Let(v15, Call 1[v8, v12]#3, Compare(Less, v15, v10))#2, If(v14, Drop(v9, Drop(v1, Drop(v11, Var v13#1))), Share(v11, v16, v17, Let(v18, Let(v19, Let(v20, Number(0)#1, Arith(Sub, v20, v16))#2, Call 0[v9, v19, v13])#3, Call 0[v1, v17, v18])#3)))#1)))))#1))#2
supply [v0]: CaseList(v0, Number(0)#1, v1, v2, Split(v1, v3, v4, Drop(v3, Let(v5, Call 3[v2]#2, Arith(Add, v4, v5))#2))#2)#3
run_block [v0, v1]: CaseList(v0, Var v1#1, v2, v3, Split(v2, v4, v5, Split(v5, v6, v7, Let(v8, Call 2[v4, v6, v7, v1]#5, Call 4[v3, v8])#2)#2)#2)#3
",
);

pub const TRIPLES: (&str, &str) = (
    texts::TRIPLES,
    "\
with_two [v0, v1, v2, v3]: CaseList(v2, Drop(v0, Drop(v1, Var v3#1)), v4, v5, Tick(1, Share(v0, v6, v7, Share(v1, v8, v9, Let(v10, Let(v11, Pair(v8, v4)#3, Pair(v6, v11))#2, Let(v12, Call 0[v7, v9, v5, v3]#5, Cons(v10, v12)))#1)))#1)#3
with_one [v0, v1, v2]: CaseList(v1, Drop(v0, Var v2#1), v3, v4, Share(v0, v5, v6, Share(v4, v7, v8, Let(v9, Call 1[v5, v7, v2]#4, Call 0[v6, v3, v8, v9])#4)))#3
triples [v0]: CaseList(v0, Nil#1, v1, v2, Share(v2, v3, v4, Let(v5, Call 2[v3]#2, Call 1[v1, v4, v5])#3))#3
",
);

pub const TWO_LIST_QUEUE: (&str, &str) = (
    "\
(* functional queue of two lists: put, get, and a list sent through it *)
fun onto (x : int list, acc : int list) : int list =
  match x with nil -> acc | h :: t -> tick 1 in onto(t, h :: acc)
fun put (x : int, q : int list * int list) : int list * int list =
  let (front, back) = q in (front, x :: back)
fun norm (q : int list * int list) : int list * int list =
  let (front, back) = q in
  match front with nil -> (onto(back, nil), nil) | h :: t -> q
fun get (q : int list * int list) : int * (int list * int list) =
  let (front, back) = norm(q) in
  match front with nil -> (0, (nil, back)) | h :: t -> (h, (t, back))
fun put_all (l : int list, q : int list * int list) : int list * int list =
  match l with nil -> q | h :: t -> put_all(t, put(h, q))
fun get_all (count : int list, q : int list * int list) : int list =
  match count with
    nil -> nil
  | c :: cs -> let (x, rest) = get(q) in x :: get_all(cs, rest)
fun through (l : int list) : int list = get_all(l, put_all(l, (nil, nil)))",
    "\
onto [v0, v1]: CaseList(v0, Var v1#1, v2, v3, Tick(1, Let(v4, Cons(v2, v1)#3, Call 0[v3, v4])#2)#1)#3
put [v0, v1]: Split(v1, v2, v3, Let(v4, Cons(v0, v3)#3, Pair(v2, v4))#2)#3
norm [v0]: Share(v0, v1, v2, Split(v1, v3, v4, CaseList(v3, Drop(v2, Let(v5, Let(v6, Nil#1, Call 0[v4, v6])#2, Let(v7, Nil#1, Pair(v5, v7)))#1), v8, v9, Drop(v8, Drop(v9, Drop(v4, Var v2#1))))#2)#3)
get [v0]: Let(v1, Call 2[v0]#2, Split(v1, v2, v3, CaseList(v2, Let(v4, Number(0)#1, Let(v5, Let(v6, Nil#1, Pair(v6, v3))#2, Pair(v4, v5)))#1, v7, v8, Let(v9, Pair(v8, v3)#3, Pair(v7, v9))#2)#2))#2
put_all [v0, v1]: CaseList(v0, Var v1#1, v2, v3, Let(v4, Call 1[v2, v1]#3, Call 4[v3, v4])#2)#3
get_all [v0, v1]: CaseList(v0, Drop(v1, Nil#1), v2, v3, Drop(v2, Let(v4, Call 3[v1]#2, Split(v4, v5, v6, Let(v7, Call 5[v3, v6]#3, Cons(v5, v7))#2))#1))#3
through [v0]: Share(v0, v1, v2, Let(v3, Let(v4, Let(v5, Nil#1, Let(v6, Nil#1, Pair(v5, v6)))#1, Call 4[v1, v4])#2, Call 5[v2, v3])#3)
",
);

pub const ZIP_UNZIP: (&str, &str) = (
    texts::ZIPS,
    "\
zip [v0, v1]: CaseList(v0, Drop(v1, Nil#1), v2, v3, CaseList(v1, Drop(v2, Drop(v3, Nil#1)), v4, v5, Let(v6, Pair(v2, v4)#3, Let(v7, Call 0[v3, v5]#3, Cons(v6, v7)))#1)#2)#3
unzip [v0]: CaseList(v0, Let(v1, Nil#1, Let(v2, Nil#1, Pair(v1, v2)))#1, v3, v4, Split(v3, v5, v6, Let(v7, Call 1[v4]#2, Split(v7, v8, v9, Tick(1, Let(v10, Cons(v5, v8)#3, Let(v11, Cons(v6, v9)#3, Pair(v10, v11)))#1)#1))#1)#2)#3
round_trip [v0, v1]: Let(v2, Let(v3, Call 0[v0, v1]#3, Call 1[v3])#1, Split(v2, v4, v5, Call 0[v4, v5]#3))#2
",
);
