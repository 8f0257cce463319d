// Programs with the normal forms of their functions, one a line. Variables are shown by the order in which
// they come first, and the nodes of a form behind it.

use crate::texts;

pub const ACKERMANN: (&str, &str) = (
    "\
(* Ackermann's function on numbers and on lists: no bound of any degree *)
fun ack (m : int, n : int) : int =
  tick 1 in
  if m = 0 then n + 1
  else if n = 0 then ack(m - 1, 1)
  else ack(m - 1, ack(m, n - 1))
fun ack_list (m : int list, n : int list) : int list =
  tick 1 in
  match m with
    nil -> 1 :: n
  | a :: t -> match n with
      nil -> ack_list(t, 1 :: nil)
    | b :: u -> ack_list(t, ack_list(m, u))",
    "\
ack [v0, v1]: Tick(1, Share(v0, v2, v3, Let(v4, Let(v5, Number(0)#1, Compare(Equal, v2, v5))#2, If(v4, Drop(v3, Let(v6, Number(1)#1, Arith(Add, v1, v6))#2), Share(v1, v7, v8, Let(v9, Let(v10, Number(0)#1, Compare(Equal, v7, v10))#2, If(v9, Drop(v8, Let(v11, Let(v12, Number(1)#1, Arith(Sub, v3, v12))#2, Let(v13, Number(1)#1, Call 0[v11, v13]))#1), Share(v3, v14, v15, Let(v16, Let(v17, Number(1)#1, Arith(Sub, v14, v17))#2, Let(v18, Let(v19, Let(v20, Number(1)#1, Arith(Sub, v8, v20))#2, Call 0[v15, v19])#2, Call 0[v16, v18]))#1)))#1)))#1))#2
ack_list [v0, v1]: Tick(1, Share(v0, v2, v3, CaseList(v2, Drop(v3, Let(v4, Number(1)#1, Cons(v4, v1))#2), v5, v6, Drop(v5, CaseList(v1, Drop(v3, Let(v7, Let(v8, Number(1)#1, Let(v9, Nil#1, Cons(v8, v9)))#1, Call 1[v6, v7])#2), v10, v11, Drop(v10, Let(v12, Call 1[v3, v11]#3, Call 1[v6, v12])#2))#2))#2))#2
",
);

pub const APPEND: (&str, &str) = (
    texts::APPENDS,
    "\
append [v0, v1]: CaseList(v0, Var v1#1, v2, v3, Let(v4, Call 0[v3, v1]#3, Cons(v2, v4))#2)#3
leftmost [v0, v1, v2]: Let(v3, Call 0[v0, v1]#3, Call 0[v3, v2])#3
rightmost [v0, v1, v2]: Let(v3, Call 0[v1, v2]#3, Call 0[v0, v3])#3
",
);

pub const BINARY_COUNTER: (&str, &str) = (
    "\
(* counter whose bits are lists: one is a list of one element, zero is empty, least bit first *)
fun inc (bits : int list list) : int list list =
  match bits with
    nil -> (1 :: nil) :: nil
  | b :: rest ->
      match b with
        nil -> (1 :: nil) :: rest
      | one :: u -> tick 1 in nil :: inc(rest)
fun count (l : int list, bits : int list list) : int list list =
  match l with nil -> bits | h :: t -> count(t, inc(bits))
fun value (bits : int list list) : int =
  match bits with
    nil -> 0
  | b :: rest -> match b with nil -> 2 * value(rest) | one :: u -> 1 + 2 * value(rest)
fun length (l : int list) : int = value(count(l, nil))",
    "\
inc [v0]: CaseList(v0, Let(v1, Let(v2, Number(1)#1, Let(v3, Nil#1, Cons(v2, v3)))#1, Let(v4, Nil#1, Cons(v1, v4)))#1, v5, v6, CaseList(v5, Let(v7, Let(v8, Number(1)#1, Let(v9, Nil#1, Cons(v8, v9)))#1, Cons(v7, v6))#2, v10, v11, Drop(v10, Drop(v11, Tick(1, Let(v12, Nil#1, Let(v13, Call 0[v6]#2, Cons(v12, v13)))#1)#1)))#2)#3
count [v0, v1]: CaseList(v0, Var v1#1, v2, v3, Drop(v2, Let(v4, Call 0[v1]#2, Call 1[v3, v4])#2))#3
value [v0]: CaseList(v0, Number(0)#1, v1, v2, CaseList(v1, Let(v3, Number(2)#1, Let(v4, Call 2[v2]#2, Arith(Mul, v3, v4)))#1, v5, v6, Drop(v5, Drop(v6, Let(v7, Number(1)#1, Let(v8, Let(v9, Number(2)#1, Let(v10, Call 2[v2]#2, Arith(Mul, v9, v10)))#1, Arith(Add, v7, v8)))#1)))#2)#3
length [v0]: Let(v1, Let(v2, Nil#1, Call 1[v0, v2])#2, Call 2[v1])#2
",
);

pub const CARTESIAN: (&str, &str) = (
    "\
(* cartesian product of two lists, and all pairs from one list *)
fun attach (a : int, y : int list, rest : (int * int) list) : (int * int) list =
  match y with nil -> rest | b :: u -> tick 1 in (a, b) :: attach(a, u, rest)
fun cartesian (x : int list, y : int list) : (int * int) list =
  match x with nil -> nil | a :: t -> attach(a, y, cartesian(t, y))
fun pairs (x : int list) : (int * int) list =
  match x with nil -> nil | a :: t -> attach(a, t, pairs(t))",
    "\
attach [v0, v1, v2]: CaseList(v1, Drop(v0, Var v2#1), v3, v4, Tick(1, Share(v0, v5, v6, Let(v7, Pair(v5, v3)#3, Let(v8, Call 0[v6, v4, v2]#4, Cons(v7, v8)))#1))#1)#3
cartesian [v0, v1]: CaseList(v0, Drop(v1, Nil#1), v2, v3, Share(v1, v4, v5, Let(v6, Call 1[v3, v4]#3, Call 0[v2, v5, v6])#3))#3
pairs [v0]: CaseList(v0, Nil#1, v1, v2, Share(v2, v3, v4, Let(v5, Call 2[v3]#2, Call 0[v1, v4, v5])#3))#3
",
);

pub const CHAIN: (&str, &str) = (
    "\
(* a short chain of calls with ticks that double, none of them recursive *)
fun c0 (x : int) : int = tick 1 in x + 1
fun c1 (x : int) : int = c0(c0(x))
fun c2 (x : int) : int = c1(c1(x))
fun c3 (x : int) : int = c2(c2(x))
fun c4 (x : int) : int = c3(c3(x))
fun c5 (x : int) : int = c4(c4(x))
fun c6 (x : int) : int = tick 1000000 in c5(c5(x))",
    "\
c0 [v0]: Tick(1, Let(v1, Number(1)#1, Arith(Add, v0, v1))#2)#2
c1 [v0]: Let(v1, Call 0[v0]#2, Call 0[v1])#2
c2 [v0]: Let(v1, Call 1[v0]#2, Call 1[v1])#2
c3 [v0]: Let(v1, Call 2[v0]#2, Call 2[v1])#2
c4 [v0]: Let(v1, Call 3[v0]#2, Call 3[v1])#2
c5 [v0]: Let(v1, Call 4[v0]#2, Call 4[v1])#2
c6 [v0]: Tick(1000000, Let(v1, Call 5[v0]#2, Call 5[v1])#1)#2
",
);

pub const COMMON_SUBSEQUENCE: (&str, &str) = (
    "\
(* length of the longest common subsequence, by a table made row by row *)
fun max (a : int, b : int) : int = if a < b then b else a
fun first (row : int list) : int = match row with nil -> 0 | h :: t -> h
fun zeros (y : int list) : int list = match y with nil -> 0 :: nil | h :: t -> 0 :: zeros(t)
fun rest (row : int list) : int list = match row with nil -> nil | h :: t -> t
fun new_row (a : int, y : int list, above : int list) : int list =
  match y with
    nil -> 0 :: nil
  | b :: u ->
      let tail = new_row(a, u, rest(above)) in
      tick 1 in
      if a = b then (first(rest(above)) + 1) :: tail else max(first(above), first(tail)) :: tail
fun table (x : int list, y : int list) : int list list =
  match x with
    nil -> zeros(y) :: nil
  | a :: t ->
      let below = table(t, y) in
      match below with nil -> nil | row :: rows -> new_row(a, y, row) :: below
fun lcs (x : int list, y : int list) : int =
  match table(x, y) with nil -> 0 | row :: rows -> first(row)",
    "\
max [v0, v1]: Share(v0, v2, v3, Share(v1, v4, v5, Let(v6, Compare(Less, v2, v4)#3, If(v6, Drop(v3, Var v5#1), Drop(v5, Var v3#1)))#2))
first [v0]: CaseList(v0, Number(0)#1, v1, v2, Drop(v2, Var v1#1))#3
zeros [v0]: CaseList(v0, Let(v1, Number(0)#1, Let(v2, Nil#1, Cons(v1, v2)))#1, v3, v4, Drop(v3, Let(v5, Number(0)#1, Let(v6, Call 2[v4]#2, Cons(v5, v6)))#1))#3
rest [v0]: CaseList(v0, Nil#1, v1, v2, Drop(v1, Var v2#1))#3
new_row [v0, v1, v2]: CaseList(v1, Drop(v0, Drop(v2, Let(v3, Number(0)#1, Let(v4, Nil#1, Cons(v3, v4)))#1)), v5, v6, Share(v0, v7, v8, Share(v2, v9, v10, Let(v11, Let(v12, Call 3[v9]#2, Call 4[v7, v6, v12])#3, Tick(1, Let(v13, Compare(Equal, v8, v5)#3, If(v13, Let(v14, Let(v15, Let(v16, Call 3[v10]#2, Call 1[v16])#1, Let(v17, Number(1)#1, Arith(Add, v15, v17)))#1, Cons(v14, v11))#2, Share(v11, v18, v19, Let(v20, Let(v21, Call 1[v10]#2, Let(v22, Call 1[v18]#2, Call 0[v21, v22]))#1, Cons(v20, v19))#2)))#1)#1)#1)))#3
table [v0, v1]: CaseList(v0, Let(v2, Call 2[v1]#2, Let(v3, Nil#1, Cons(v2, v3)))#1, v4, v5, Share(v1, v6, v7, Let(v8, Call 5[v5, v6]#3, Share(v8, v9, v10, CaseList(v9, Drop(v4, Drop(v7, Drop(v10, Nil#1))), v11, v12, Drop(v12, Let(v13, Call 4[v4, v7, v11]#4, Cons(v13, v10))#2))#2))#1))#3
lcs [v0, v1]: Let(v2, Call 5[v0, v1]#3, CaseList(v2, Number(0)#1, v3, v4, Drop(v4, Call 1[v3]#2)))#2
",
);

pub const DICTIONARY_OPTION: (&str, &str) = (
    "\
(* look-up in an association list with an answer that may be none *)
fun find (key : int, table : (int * int) list) : int option =
  match table with
    nil -> none
  | entry :: rest ->
      let (k, v) = entry in
      tick 1 in if k = key then some(v) else find(key, rest)
fun or_else (o : int option, default : int) : int =
  match o with none -> default | some(v) -> v
fun find_all (keys : int list, table : (int * int) list) : int option list =
  match keys with nil -> nil | k :: ks -> find(k, table) :: find_all(ks, table)
fun present (l : int option list) : int list =
  match l with
    nil -> nil
  | o :: rest -> match o with none -> present(rest) | some(v) -> v :: present(rest)
fun values (keys : int list, table : (int * int) list) : int list = present(find_all(keys, table))",
    "\
find [v0, v1]: CaseList(v1, Drop(v0, None#1), v2, v3, Split(v2, v4, v5, Tick(1, Share(v0, v6, v7, Let(v8, Compare(Equal, v4, v6)#3, If(v8, Drop(v7, Drop(v3, Some(v5)#2)), Drop(v5, Call 0[v7, v3]#3)))#1))#1)#2)#3
or_else [v0, v1]: CaseOption(v0, Var v1#1, v2, Drop(v1, Var v2#1))#3
find_all [v0, v1]: CaseList(v0, Drop(v1, Nil#1), v2, v3, Share(v1, v4, v5, Let(v6, Call 0[v2, v4]#3, Let(v7, Call 2[v3, v5]#3, Cons(v6, v7)))#1))#3
present [v0]: CaseList(v0, Nil#1, v1, v2, CaseOption(v1, Call 3[v2]#2, v3, Let(v4, Call 3[v2]#2, Cons(v3, v4))#2)#2)#3
values [v0, v1]: Let(v2, Call 2[v0, v1]#3, Call 3[v2])#2
",
);

pub const EVERY_NTH: (&str, &str) = (
    "\
(* every second, third and fifth element: least bounds with fractions *)
fun second (l : int list) : int list =
  match l with
    nil -> nil
  | a :: t -> match t with nil -> nil | b :: u -> tick 1 in b :: second(u)
fun third (l : int list) : int list =
  match l with
    nil -> nil
  | a :: t -> match t with
      nil -> nil
    | b :: u -> match u with nil -> nil | c :: v -> tick 2 in c :: third(v)
fun fifth (l : int list) : int =
  match l with nil -> 0 | a :: t ->
  match t with nil -> 0 | b :: t ->
  match t with nil -> 0 | c :: t ->
  match t with nil -> 0 | d :: t ->
  match t with nil -> 0 | e :: t -> tick 1 in fifth(t) + e
fun thirtieth (l : int list) : int = fifth(third(second(l)))",
    "\
second [v0]: CaseList(v0, Nil#1, v1, v2, Drop(v1, CaseList(v2, Nil#1, v3, v4, Tick(1, Let(v5, Call 0[v4]#2, Cons(v3, v5))#2)#1)#2))#3
third [v0]: CaseList(v0, Nil#1, v1, v2, Drop(v1, CaseList(v2, Nil#1, v3, v4, Drop(v3, CaseList(v4, Nil#1, v5, v6, Tick(2, Let(v7, Call 1[v6]#2, Cons(v5, v7))#2)#1)#2))#2))#3
fifth [v0]: CaseList(v0, Number(0)#1, v1, v2, Drop(v1, CaseList(v2, Number(0)#1, v3, v4, Drop(v3, CaseList(v4, Number(0)#1, v5, v6, Drop(v5, CaseList(v6, Number(0)#1, v7, v8, Drop(v7, CaseList(v8, Number(0)#1, v9, v10, Tick(1, Let(v11, Call 2[v10]#2, Arith(Add, v11, v9))#2)#1)#2))#2))#2))#2))#3
thirtieth [v0]: Let(v1, Let(v2, Call 0[v0]#2, Call 1[v2])#1, Call 2[v1])#2
",
);

pub const FIBONACCI: (&str, &str) = (
    "\
(* Fibonacci numbers: by the plain recursion there is no bound; along a list there is *)
fun fib (n : int) : int = if n < 2 then n else tick 1 in fib(n - 1) + fib(n - 2)
fun along (l : int list, a : int, b : int) : int =
  match l with nil -> a | h :: t -> tick 1 in along(t, b, a + b)
fun fib_list (l : int list) : int = match l with nil -> 0 | h :: t -> tick 1 in fib_two(t) + fib_list(t)
fun fib_two (l : int list) : int = match l with nil -> 1 | h :: t -> fib_list(t)",
    "\
fib [v0]: Share(v0, v1, v2, Let(v3, Let(v4, Number(2)#1, Compare(Less, v1, v4))#2, If(v3, Var v2#1, Tick(1, Share(v2, v5, v6, Let(v7, Let(v8, Let(v9, Number(1)#1, Arith(Sub, v5, v9))#2, Call 0[v8])#1, Let(v10, Let(v11, Let(v12, Number(2)#1, Arith(Sub, v6, v12))#2, Call 0[v11])#1, Arith(Add, v7, v10)))#1))#1))#2)
along [v0, v1, v2]: CaseList(v0, Drop(v2, Var v1#1), v3, v4, Drop(v3, Tick(1, Share(v2, v5, v6, Let(v7, Arith(Add, v1, v5)#3, Call 1[v4, v6, v7])#3))#1))#3
fib_list [v0]: CaseList(v0, Number(0)#1, v1, v2, Drop(v1, Tick(1, Share(v2, v3, v4, Let(v5, Call 3[v3]#2, Let(v6, Call 2[v4]#2, Arith(Add, v5, v6)))#1))#1))#3
fib_two [v0]: CaseList(v0, Number(1)#1, v1, v2, Drop(v1, Call 2[v2]#2))#3
",
);

pub const FILTERS: (&str, &str) = (
    "\
(* a family of filters, each with its own price, and their composition *)
fun evens (l : int list) : int list =
  match l with
    nil -> nil
  | h :: t -> tick 2 in if h mod 2 = 0 then h :: evens(t) else evens(t)
fun below (limit : int, l : int list) : int list =
  match l with
    nil -> nil
  | h :: t -> tick 3 in if h < limit then h :: below(limit, t) else below(limit, t)
fun between (low : int, high : int, l : int list) : int list =
  match l with
    nil -> nil
  | h :: t ->
      tick 5 in
      if low <= h
      then (if h <= high then h :: between(low, high, t) else between(low, high, t))
      else between(low, high, t)
fun without (x : int, l : int list) : int list =
  match l with
    nil -> nil
  | h :: t -> tick 7 in if not (h = x) then h :: without(x, t) else without(x, t)
fun all (l : int list) : int list = without(4, between(0, 100, below(50, evens(l))))",
    "\
evens [v0]: CaseList(v0, Nil#1, v1, v2, Tick(2, Share(v1, v3, v4, Let(v5, Let(v6, Let(v7, Number(2)#1, Arith(Mod, v3, v7))#2, Let(v8, Number(0)#1, Compare(Equal, v6, v8)))#1, If(v5, Let(v9, Call 0[v2]#2, Cons(v4, v9))#2, Drop(v4, Call 0[v2]#2)))#1))#1)#3
below [v0, v1]: CaseList(v1, Drop(v0, Nil#1), v2, v3, Tick(3, Share(v0, v4, v5, Share(v2, v6, v7, Let(v8, Compare(Less, v6, v4)#3, If(v8, Let(v9, Call 1[v5, v3]#3, Cons(v7, v9))#2, Drop(v7, Call 1[v5, v3]#3)))#1)))#1)#3
between [v0, v1, v2]: CaseList(v2, Drop(v0, Drop(v1, Nil#1)), v3, v4, Tick(5, Share(v0, v5, v6, Share(v3, v7, v8, Let(v9, Compare(AtMost, v5, v7)#3, If(v9, Share(v1, v10, v11, Share(v8, v12, v13, Let(v14, Compare(AtMost, v12, v10)#3, If(v14, Let(v15, Call 2[v6, v11, v4]#4, Cons(v13, v15))#2, Drop(v13, Call 2[v6, v11, v4]#4)))#1)), Drop(v8, Call 2[v6, v1, v4]#4)))#1)))#1)#3
without [v0, v1]: CaseList(v1, Drop(v0, Nil#1), v2, v3, Tick(7, Share(v0, v4, v5, Share(v2, v6, v7, Let(v8, Let(v9, Compare(Equal, v6, v4)#3, Not(v9))#1, If(v8, Let(v10, Call 3[v5, v3]#3, Cons(v7, v10))#2, Drop(v7, Call 3[v5, v3]#3)))#1)))#1)#3
all [v0]: Let(v1, Number(4)#1, Let(v2, Let(v3, Number(0)#1, Let(v4, Number(100)#1, Let(v5, Let(v6, Number(50)#1, Let(v7, Call 0[v0]#2, Call 1[v6, v7]))#1, Call 2[v3, v4, v5])))#1, Call 3[v1, v2]))#2
",
);

pub const FLATTEN_ORDERS: (&str, &str) = (
    "\
(* preorder, inorder and postorder of a tree with an accumulator, and inorder by appends *)
fun append (x : int list, y : int list) : int list =
  match x with nil -> y | h :: t -> h :: append(t, y)
fun pre (t : int tree, acc : int list) : int list =
  match t with leaf -> acc | node(a, l, r) -> a :: pre(l, pre(r, acc))
fun inorder (t : int tree, acc : int list) : int list =
  match t with leaf -> acc | node(a, l, r) -> inorder(l, a :: inorder(r, acc))
fun post (t : int tree, acc : int list) : int list =
  match t with leaf -> acc | node(a, l, r) -> tick 1 in post(l, post(r, a :: acc))
fun by_appends (t : int tree) : int list =
  match t with leaf -> nil | node(a, l, r) -> append(by_appends(l), a :: by_appends(r))",
    "\
append [v0, v1]: CaseList(v0, Var v1#1, v2, v3, Let(v4, Call 0[v3, v1]#3, Cons(v2, v4))#2)#3
pre [v0, v1]: CaseTree(v0, Var v1#1, v2, v3, v4, Let(v5, Let(v6, Call 1[v4, v1]#3, Call 1[v3, v6])#2, Cons(v2, v5))#2)#3
inorder [v0, v1]: CaseTree(v0, Var v1#1, v2, v3, v4, Let(v5, Let(v6, Call 2[v4, v1]#3, Cons(v2, v6))#2, Call 2[v3, v5])#2)#3
post [v0, v1]: CaseTree(v0, Var v1#1, v2, v3, v4, Tick(1, Let(v5, Let(v6, Cons(v2, v1)#3, Call 3[v4, v6])#2, Call 3[v3, v5])#2)#1)#3
by_appends [v0]: CaseTree(v0, Nil#1, v1, v2, v3, Let(v4, Call 4[v2]#2, Let(v5, Let(v6, Call 4[v3]#2, Cons(v1, v6))#2, Call 0[v4, v5]))#1)#3
",
);

pub const GROUP_BY: (&str, &str) = (
    "\
(* batch job: group a table sorted by key into one list of values per key *)
fun values_of (key : int, rows : (int * int) list) : int list * (int * int) list =
  match rows with
    nil -> (nil, nil)
  | row :: rest ->
      let (k, v) = row in
      tick 1 in
      if k = key
      then let (vs, left) = values_of(key, rest) in (v :: vs, left)
      else (nil, row :: rest)
fun group_by (rows : (int * int) list) : (int * int list) list =
  match rows with
    nil -> nil
  | row :: rest ->
      let (key, v) = row in
      let (vs, left) = values_of(key, rest) in
      (key, v :: vs) :: group_by(left)
fun totals (groups : (int * int list) list) : (int * int) list =
  match groups with
    nil -> nil
  | g :: gs -> let (key, vs) = g in (key, sum(vs)) :: totals(gs)
fun sum (l : int list) : int = match l with nil -> 0 | h :: t -> tick 1 in h + sum(t)
fun report (rows : (int * int) list) : (int * int) list = totals(group_by(rows))",
    "\
values_of [v0, v1]: CaseList(v1, Drop(v0, Let(v2, Nil#1, Let(v3, Nil#1, Pair(v2, v3)))#1), v4, v5, Share(v4, v6, v7, Split(v6, v8, v9, Tick(1, Share(v0, v10, v11, Let(v12, Compare(Equal, v8, v10)#3, If(v12, Drop(v7, Let(v13, Call 0[v11, v5]#3, Split(v13, v14, v15, Let(v16, Cons(v9, v14)#3, Pair(v16, v15))#2))#1), Drop(v11, Drop(v9, Let(v17, Nil#1, Let(v18, Cons(v7, v5)#3, Pair(v17, v18)))#1))))#1))#1)#2))#3
group_by [v0]: CaseList(v0, Nil#1, v1, v2, Split(v1, v3, v4, Share(v3, v5, v6, Let(v7, Call 0[v5, v2]#3, Split(v7, v8, v9, Let(v10, Let(v11, Cons(v4, v8)#3, Pair(v6, v11))#2, Let(v12, Call 1[v9]#2, Cons(v10, v12)))#1))#1))#2)#3
totals [v0]: CaseList(v0, Nil#1, v1, v2, Split(v1, v3, v4, Let(v5, Let(v6, Call 3[v4]#2, Pair(v3, v6))#2, Let(v7, Call 2[v2]#2, Cons(v5, v7)))#1)#2)#3
sum [v0]: CaseList(v0, Number(0)#1, v1, v2, Tick(1, Let(v3, Call 3[v2]#2, Arith(Add, v1, v3))#2)#1)#3
report [v0]: Let(v1, Call 1[v0]#2, Call 2[v1])#2
",
);

pub const HORNER: (&str, &str) = (
    "\
(* value of a polynomial by Horner's rule, at one place and at many *)
fun horner (x : int, coefficients : int list) : int =
  match coefficients with nil -> 0 | c :: cs -> tick 2 in c + x * horner(x, cs)
fun forward (x : int, acc : int, coefficients : int list) : int =
  match coefficients with nil -> acc | c :: cs -> tick 2 in forward(x, acc * x + c, cs)
fun at_all (places : int list, coefficients : int list) : int list =
  match places with nil -> nil | x :: xs -> horner(x, coefficients) :: at_all(xs, coefficients)",
    "\
horner [v0, v1]: CaseList(v1, Drop(v0, Number(0)#1), v2, v3, Tick(2, Let(v4, Share(v0, v5, v6, Let(v7, Call 0[v5, v3]#3, Arith(Mul, v6, v7))#2), Arith(Add, v2, v4))#2)#1)#3
forward [v0, v1, v2]: CaseList(v2, Drop(v0, Var v1#1), v3, v4, Tick(2, Share(v0, v5, v6, Let(v7, Let(v8, Arith(Mul, v1, v5)#3, Arith(Add, v8, v3))#2, Call 1[v6, v7, v4])#3))#1)#3
at_all [v0, v1]: CaseList(v0, Drop(v1, Nil#1), v2, v3, Share(v1, v4, v5, Let(v6, Call 0[v2, v4]#3, Let(v7, Call 2[v3, v5]#3, Cons(v6, v7)))#1))#3
",
);

pub const INSERTION_SORT: (&str, &str) = (
    "\
(* insertion sort, upwards and downwards, with one tick per comparison *)
fun insert (x : int, l : int list) : int list =
  match l with
    nil -> x :: nil
  | h :: t -> tick 1 in if x <= h then x :: h :: t else h :: insert(x, t)
fun isort (l : int list) : int list =
  match l with nil -> nil | h :: t -> insert(h, isort(t))
fun insert_down (x : int, l : int list) : int list =
  match l with
    nil -> x :: nil
  | h :: t -> tick 1 in if h <= x then x :: h :: t else h :: insert_down(x, t)
fun isort_onto (l : int list, sorted : int list) : int list =
  match l with nil -> sorted | h :: t -> isort_onto(t, insert_down(h, sorted))",
    "\
insert [v0, v1]: CaseList(v1, Let(v2, Nil#1, Cons(v0, v2))#2, v3, v4, Tick(1, Share(v0, v5, v6, Share(v3, v7, v8, Let(v9, Compare(AtMost, v5, v7)#3, If(v9, Let(v10, Cons(v8, v4)#3, Cons(v6, v10))#2, Let(v11, Call 0[v6, v4]#3, Cons(v8, v11))#2))#1)))#1)#3
isort [v0]: CaseList(v0, Nil#1, v1, v2, Let(v3, Call 1[v2]#2, Call 0[v1, v3])#2)#3
insert_down [v0, v1]: CaseList(v1, Let(v2, Nil#1, Cons(v0, v2))#2, v3, v4, Tick(1, Share(v0, v5, v6, Share(v3, v7, v8, Let(v9, Compare(AtMost, v7, v5)#3, If(v9, Let(v10, Cons(v8, v4)#3, Cons(v6, v10))#2, Let(v11, Call 2[v6, v4]#3, Cons(v8, v11))#2))#1)))#1)#3
isort_onto [v0, v1]: CaseList(v0, Var v1#1, v2, v3, Let(v4, Call 2[v2, v1]#3, Call 3[v3, v4])#2)#3
",
);

pub const MATRIX_PRODUCT: (&str, &str) = (
    "\
(* product of matrices kept as lists of rows; the second is given transposed *)
fun dot (x : int list, y : int list) : int =
  match x with
    nil -> 0
  | a :: t -> match y with nil -> 0 | b :: u -> tick 2 in a * b + dot(t, u)
fun row_times (r : int list, cols : int list list) : int list =
  match cols with nil -> nil | c :: cs -> dot(r, c) :: row_times(r, cs)
fun times (rows : int list list, cols : int list list) : int list list =
  match rows with nil -> nil | r :: rs -> row_times(r, cols) :: times(rs, cols)",
    "\
dot [v0, v1]: CaseList(v0, Drop(v1, Number(0)#1), v2, v3, CaseList(v1, Drop(v2, Drop(v3, Number(0)#1)), v4, v5, Tick(2, Let(v6, Arith(Mul, v2, v4)#3, Let(v7, Call 0[v3, v5]#3, Arith(Add, v6, v7)))#1)#1)#2)#3
row_times [v0, v1]: CaseList(v1, Drop(v0, Nil#1), v2, v3, Share(v0, v4, v5, Let(v6, Call 0[v4, v2]#3, Let(v7, Call 1[v5, v3]#3, Cons(v6, v7)))#1))#3
times [v0, v1]: CaseList(v0, Drop(v1, Nil#1), v2, v3, Share(v1, v4, v5, Let(v6, Call 1[v2, v4]#3, Let(v7, Call 2[v3, v5]#3, Cons(v6, v7)))#1))#3
",
);
