//! Maps of variables that leave or are shared, worked out by an independent reading: the degree of a map, and each of its entries.

/// `empty_part` of (int list, int list) at 0, to (int list); of (int list option, int list) it is the same.
pub(super) const EMPTY_ONE: &str = "\
1 0 0 1
1 1 1 1
2 0 0 1
2 1 1 1
2 3 2 1
3 0 0 1
3 1 1 1
3 3 2 1
3 6 3 1";

/// `empty_part` of (int list tree, int list) at 0, to (int list).
pub(super) const EMPTY_TWO: &str = "\
1 0 0 1
1 1 1 1
2 0 0 1
2 1 1 1
2 3 2 1
3 0 0 1
3 1 1 1
3 3 2 1
3 7 3 1";

/// `drop_var` of (int list, int list list) at 1, to (int list).
pub(super) const DROP_ONE: &str = "\
1 0 0 1
1 2 1 1
2 0 0 1
2 2 1 1
2 6 2 1
3 0 0 1
3 2 1 1
3 6 2 1
3 14 3 1";

/// `share_map` of (int list) at 0, from (int list, int list).
pub(super) const SHARE_ONE: &str = "\
1 0 0 1
1 1 1 1
1 2 1 1
2 0 0 1
2 1 1 1
2 2 1 1
2 3 2 1
2 4 1 1
2 4 2 2
2 5 2 1
3 0 0 1
3 1 1 1
3 2 1 1
3 3 2 1
3 4 1 1
3 4 2 2
3 5 2 1
3 6 3 1
3 7 2 2
3 7 3 3
3 8 2 2
3 8 3 3
3 9 3 1";

/// `share_map` of (int, int list list) at 1, from (int, int list list, int list list).
pub(super) const SHARE_TWO: &str = "\
1 0 0 1
1 1 1 1
1 2 1 1
2 0 0 1
2 1 1 1
2 2 1 1
2 3 2 1
2 4 3 1
2 5 1 1
2 5 2 2
2 6 2 1
2 7 3 1
3 0 0 1
3 1 1 1
3 2 1 1
3 3 2 1
3 4 3 1
3 5 1 1
3 5 2 2
3 6 2 1
3 7 3 1
3 8 4 1
3 9 5 1
3 10 6 1
3 11 7 1
3 12 2 2
3 12 4 3
3 13 3 1
3 13 5 1
3 13 6 1
3 14 2 2
3 14 4 3
3 15 4 1
3 16 5 1
3 17 3 1
3 17 5 1
3 17 6 1
3 18 6 1
3 19 7 1";

/// `share_map` of (int list * int list, int list) at 0, from (int list * int list, int list * int list, int list).
pub(super) const SHARE_THREE: &str = "\
1 0 0 1
1 1 1 1
1 2 2 1
1 3 3 1
1 4 2 1
1 5 3 1
2 0 0 1
2 1 1 1
2 2 2 1
2 3 3 1
2 4 2 1
2 5 3 1
2 6 4 1
2 7 5 1
2 8 6 1
2 9 7 1
2 10 8 1
2 11 9 1
2 12 5 1
2 13 2 1
2 13 6 2
2 14 8 1
2 15 6 1
2 16 7 1
2 17 8 1
2 18 3 1
2 18 9 2
2 19 8 1
2 20 9 1
3 0 0 1
3 1 1 1
3 2 2 1
3 3 3 1
3 4 2 1
3 5 3 1
3 6 4 1
3 7 5 1
3 8 6 1
3 9 7 1
3 10 8 1
3 11 9 1
3 12 5 1
3 13 2 1
3 13 6 2
3 14 8 1
3 15 6 1
3 16 7 1
3 17 8 1
3 18 3 1
3 18 9 2
3 19 8 1
3 20 9 1
3 21 10 1
3 22 11 1
3 23 12 1
3 24 13 1
3 25 14 1
3 26 15 1
3 27 16 1
3 28 17 1
3 29 18 1
3 30 19 1
3 31 11 1
3 32 5 1
3 32 12 2
3 33 6 2
3 33 13 3
3 34 15 1
3 35 8 1
3 35 16 2
3 36 18 1
3 37 12 1
3 38 6 2
3 38 13 3
3 39 16 1
3 40 13 1
3 41 14 1
3 42 15 1
3 43 16 1
3 44 7 1
3 44 17 2
3 45 8 1
3 45 18 2
3 46 9 2
3 46 19 3
3 47 15 1
3 48 8 1
3 48 16 2
3 49 8 1
3 49 18 2
3 50 16 1
3 51 17 1
3 52 18 1
3 53 9 2
3 53 19 3
3 54 18 1
3 55 19 1";

/// `drop_var` of (int option, int option) at 1, to (int option).
pub(super) const DROP_TWO: &str = "\
1 0 0 1
1 2 1 1
2 0 0 1
2 2 1 1
3 0 0 1
3 2 1 1";

/// `share_map` of (int list option) at 0, from (int list option, int list option).
pub(super) const SHARE_FOUR: &str = "\
1 0 0 1
1 1 1 1
1 2 1 1
2 0 0 1
2 1 1 1
2 2 1 1
2 3 2 1
2 4 1 1
2 5 2 1
3 0 0 1
3 1 1 1
3 2 1 1
3 3 2 1
3 4 1 1
3 5 2 1
3 6 3 1
3 7 2 1
3 8 2 1
3 9 3 1";
