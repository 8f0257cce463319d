//! Small systems, worked out by hand.

/// One unknown that is at least 3; 0 at least 1; a row with -2^127; three unknowns of which all ratios tie;
/// a system of two rows; one in which two rows are equal; right sides whose sum is 2^127.
pub(super) const SMALL: &str = "\
system 1 1
weights 0:1
row 3 0:1
answer best
x 0:3
dual 0:1
pivots 0:0

system 1 1
weights
row 1
answer none
farkas 0:1
pivots

system 1 1
weights 0:1
row 0 0:-170141183460469231731687303715884105728
answer leaves 0 0
pivots

system 3 1
weights
row 1 0:1 1:1 2:1
answer best
x 2:1
dual
pivots 2:0

system 2 2
weights 0:2 1:3
row 4 0:2 1:1
row 6 0:1 1:3
answer best
x 0:6/5 1:8/5
dual 0:3/5 1:4/5
pivots 0:0 1:1

system 2 3
weights 0:1
row 1 1:1
row 0 0:1 1:-1
row 0 0:1 1:-1
answer best
x 0:1 1:1
dual 0:1 1:1
pivots 1:0 0:1

system 5 4
weights 0:1
row 85070591730234615865843651857942052864 0:1 3:-1
row 0 2:-1 3:1
row 85070591730234615865843651857942052864 2:1 4:-1
row 0 1:-1 4:1
answer leaves 5 4
pivots 0:0 2:2
";

/// A system, and what the rules of the least column and of the greatest gain come to.
pub(super) const BOTH: [(&str, &str, &str); 4] = [
    (
        "system 1 1\nweights 0:1\nrow 3 0:1\n",
        "answer best\nx 0:3\ndual 0:1\npivots 0:0\n",
        "answer best\nx 0:3\ndual 0:1\npivots 0:0\n",
    ),
    (
        "system 3 1\nweights\nrow 1 0:1 1:1 2:1\n",
        "answer best\nx 2:1\ndual\npivots 2:0\n",
        "answer best\nx 2:1\ndual\npivots 2:0\n",
    ),
    (
        "system 2 2\nweights 0:2 1:3\nrow 4 0:2 1:1\nrow 6 0:1 1:3\n",
        "answer best\nx 0:6/5 1:8/5\ndual 0:3/5 1:4/5\npivots 0:0 1:1\n",
        "answer best\nx 0:6/5 1:8/5\ndual 0:3/5 1:4/5\npivots 1:1 0:0\n",
    ),
    (
        "system 1 1\nweights\nrow 1\n",
        "answer none\nfarkas 0:1\npivots\n",
        "answer none\nfarkas 0:1\npivots\n",
    ),
];

/// Systems whose numbers all are near 2^62, and their answers.
pub(super) const GREAT: [(&str, &str); 4] = [
    (
        "system 1 1\nweights 0:4611686018427387903\nrow 4611686018427387905 0:4611686018427387901\n",
        "answer best\nx 0:4611686018427387905/4611686018427387901\ndual 0:4611686018427387903/4611686018427387901\npivots 0:0\n",
    ),
    (
        "system 1 2\nweights 0:4611686018427387905\nrow 4611686018427387904 0:4611686018427387903\nrow 4611686018427387904 0:-4611686018427387901\n",
        "answer none\nfarkas 0:4611686018427387901/4611686018427387903 1:1\npivots 0:0\n",
    ),
    (
        "system 2 2\nweights 0:4611686018427387904 1:4611686018427387903\nrow 4611686018427387905 0:4611686018427387907 1:4611686018427387901\nrow 4611686018427387899 0:4611686018427387897 1:4611686018427387909\n",
        "answer leaves 2 2\npivots 0:0\n",
    ),
    (
        "system 2 2\nweights 0:4611686018427387904 1:4611686018427387903\nrow 4611686018427387905 0:4611686018427387907\nrow 4611686018427387899 1:4611686018427387909\n",
        "answer leaves 2 4\npivots 0:0\n",
    ),
];

/// A system, and what solving is cut with where it may make no pivot, one and so on, by the rule of the least
/// column. With one pivot more it answers.
pub(super) const LIMITED: [(&str, &[&str]); 3] = [
    (
        "system 2 2\nweights 0:2 1:3\nrow 4 0:2 1:1\nrow 6 0:1 1:3\n",
        &["cut\npivots\n", "cut\npivots 0:0\n"],
    ),
    // after one pivot the column of the second row has gain, and no row bounds it: that ends the course, also
    // where one pivot is the limit
    (
        "system 1 2\nweights 0:1\nrow 3 0:1\nrow 1\n",
        &["cut\npivots\n"],
    ),
    // the opening is refused, and needs no pivot
    (
        "system 1 1\nweights 0:1\nrow 0 0:-170141183460469231731687303715884105728\n",
        &[],
    ),
];
