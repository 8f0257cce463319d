//! Maps of variables that are taken apart, worked out by an independent reading: the degree of a map, and each of its entries.

/// `shift_list` of (int list) at 0, to (int, int list).
pub(super) const LIST_ONE: &str = "\
1 0 0 1
1 1 0 1
1 1 1 1
2 0 0 1
2 1 0 1
2 1 1 1
2 2 1 1
2 2 2 1
3 0 0 1
3 1 0 1
3 1 1 1
3 2 1 1
3 2 2 1
3 3 2 1
3 3 3 1";

/// `shift_list` of (int list list, int list) at 0, to (int list, int list list, int list).
pub(super) const LIST_TWO: &str = "\
1 0 0 1
1 1 1 1
1 2 0 1
1 2 2 1
2 0 0 1
2 1 1 1
2 2 0 1
2 2 2 1
2 3 4 1
2 4 1 1
2 4 5 1
2 5 2 1
2 5 6 1
2 6 3 1
2 6 7 1
3 0 0 1
3 1 1 1
3 2 0 1
3 2 2 1
3 3 4 1
3 4 1 1
3 4 5 1
3 5 2 1
3 5 6 1
3 6 3 1
3 6 7 1
3 7 11 1
3 8 4 1
3 8 12 1
3 9 5 1
3 9 13 1
3 10 6 1
3 10 14 1
3 11 7 1
3 11 15 1
3 12 8 1
3 12 16 1
3 13 9 1
3 13 17 1
3 14 10 1
3 14 18 1";

/// `shift_list` of (int, (int list * int) list) at 1, to (int, int list * int, (int list * int) list).
pub(super) const LIST_THREE: &str = "\
1 0 0 1
1 1 0 1
1 1 1 1
2 0 0 1
2 1 0 1
2 1 1 1
2 2 1 1
2 2 3 1
2 3 2 1
2 3 4 1
3 0 0 1
3 1 0 1
3 1 1 1
3 2 1 1
3 2 3 1
3 3 2 1
3 3 4 1
3 4 3 1
3 4 7 1
3 5 4 1
3 5 8 1
3 6 5 1
3 6 9 1
3 7 6 1
3 7 10 1";

/// `shift_tree` of (int tree) at 0, to (int, int tree, int tree).
pub(super) const TREE_ONE: &str = "\
1 0 0 1
1 1 0 1
1 1 1 1
1 1 2 1
2 0 0 1
2 1 0 1
2 1 1 1
2 1 2 1
2 2 1 1
2 2 2 1
2 2 3 1
2 2 4 1
2 2 5 1
3 0 0 1
3 1 0 1
3 1 1 1
3 1 2 1
3 2 1 1
3 2 2 1
3 2 3 1
3 2 4 1
3 2 5 1
3 3 3 1
3 3 4 1
3 3 5 1
3 3 6 1
3 3 7 1
3 3 8 1
3 3 9 1";

/// `shift_tree` of (int list, int list tree) at 1, to (int list, int list, int list tree, int list tree).
pub(super) const TREE_TWO: &str = "\
1 0 0 1
1 1 0 1
1 1 1 1
1 1 2 1
1 2 4 1
2 0 0 1
2 1 0 1
2 1 1 1
2 1 2 1
2 2 4 1
2 3 1 1
2 3 2 1
2 3 5 1
2 3 7 1
2 3 8 1
2 4 3 1
2 4 6 1
2 4 9 1
2 5 4 1
2 5 13 1
2 5 14 1
2 6 16 1
3 0 0 1
3 1 0 1
3 1 1 1
3 1 2 1
3 2 4 1
3 3 1 1
3 3 2 1
3 3 5 1
3 3 7 1
3 3 8 1
3 4 3 1
3 4 6 1
3 4 9 1
3 5 4 1
3 5 13 1
3 5 14 1
3 6 16 1
3 7 5 1
3 7 7 1
3 7 8 1
3 7 17 1
3 7 21 1
3 7 23 1
3 7 24 1
3 8 6 1
3 8 9 1
3 8 18 1
3 8 22 1
3 8 25 1
3 9 10 1
3 9 11 1
3 9 19 1
3 9 26 1
3 9 27 1
3 10 12 1
3 10 20 1
3 10 28 1
3 11 13 1
3 11 14 1
3 11 37 1
3 11 39 1
3 11 40 1
3 12 15 1
3 12 38 1
3 12 41 1
3 13 16 1
3 13 45 1
3 13 46 1
3 14 48 1";

/// `split_pair` of (int list * int tree) at 0, to (int list, int tree).
pub(super) const PAIR_ONE: &str = "\
1 0 0 1
1 1 1 1
1 2 2 1
2 0 0 1
2 1 1 1
2 2 2 1
2 3 3 1
2 4 4 1
2 5 5 1
3 0 0 1
3 1 1 1
3 2 2 1
3 3 3 1
3 4 4 1
3 5 5 1
3 6 6 1
3 7 7 1
3 8 8 1
3 9 9 1";

/// `split_pair` of (int list, int * int list * int list) at 1, to (int list, int, int list * int list).
pub(super) const PAIR_TWO: &str = "\
1 0 0 1
1 1 1 1
1 2 2 1
1 3 3 1
2 0 0 1
2 1 1 1
2 2 2 1
2 3 3 1
2 4 4 1
2 5 5 1
2 6 6 1
2 7 7 1
2 8 8 1
2 9 9 1
3 0 0 1
3 1 1 1
3 2 2 1
3 3 3 1
3 4 4 1
3 5 5 1
3 6 6 1
3 7 7 1
3 8 8 1
3 9 9 1
3 10 10 1
3 11 11 1
3 12 12 1
3 13 13 1
3 14 14 1
3 15 15 1
3 16 16 1
3 17 17 1
3 18 18 1
3 19 19 1";

/// `shift_option` of (int list option) at 0, to (int list).
pub(super) const OPTION_ONE: &str = "\
1 0 0 1
1 1 0 1
2 0 0 1
2 1 0 1
2 2 1 1
3 0 0 1
3 1 0 1
3 2 1 1
3 3 2 1";

/// `shift_option` of (int list, (int list * int) option) at 1, to (int list, int list * int).
pub(super) const OPTION_TWO: &str = "\
1 0 0 1
1 1 0 1
1 2 2 1
2 0 0 1
2 1 0 1
2 2 2 1
2 3 1 1
2 4 2 1
2 5 5 1
3 0 0 1
3 1 0 1
3 2 2 1
3 3 1 1
3 4 2 1
3 5 5 1
3 6 3 1
3 7 4 1
3 8 5 1
3 9 9 1";

/// `shift_list` of (int option list) at 0, to (int option, int option list).
pub(super) const LIST_FOUR: &str = "\
1 0 0 1
1 1 0 1
1 1 1 1
2 0 0 1
2 1 0 1
2 1 1 1
2 2 1 1
2 2 3 1
2 3 2 1
2 3 4 1
3 0 0 1
3 1 0 1
3 1 1 1
3 2 1 1
3 2 3 1
3 3 2 1
3 3 4 1
3 4 3 1
3 4 6 1
3 5 4 1
3 5 7 1
3 6 5 1
3 6 8 1";
