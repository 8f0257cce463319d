// Words with one space between any two, so that two spaces have an empty word between them, and what
// they ask for.
pub const TYPES: &str = "\
types f => types <f>
types -- f => types <f>
types f -- => types <f>
types -- -f => types <-f>
types -- -- => types <-->
types -- - => types <->
types  => types <>
types f=g => types <f=g>
types => nothing
types -- => nothing
types - => nothing
types -f => nothing
types --f => nothing
types --= => nothing
types f g => nothing
types f g h i => nothing
types f -- g => nothing
types f --degree 1 => nothing
types f --degree=1 => nothing
types f --steps 1 => nothing
type f => nothing
Types f => nothing
typess f => nothing
-- types f => nothing
 types f => nothing
help => nothing
--help => nothing
--version => nothing
 => nothing";

pub const CODE: &str = "\
code f => code <f>
code -- -f => code <-f>
code f -- => code <f>
code => nothing
code f g => nothing
code -f => nothing
code f --degree 1 => nothing
code f --steps 1 => nothing
codes f => nothing
Code f => nothing";

pub const ANALYSE: &str = "\
analyse f --degree 1 => analyse <f> 1 Least
analyse f --degree 4 => analyse <f> 4 Least
analyse f --degree 04 => analyse <f> 4 Least
analyse f --degree 0000000001 => analyse <f> 1 Least
analyse f --degree=1 => analyse <f> 1 Least
analyse f --degree=003 => analyse <f> 3 Least
analyse --degree 2 f => analyse <f> 2 Least
analyse --degree=2 f => analyse <f> 2 Least
analyse --degree 1 -- f => analyse <f> 1 Least
analyse  --degree=1 => analyse <> 1 Least
analyse --degree=1 -- -- => analyse <--> 1 Least
analyse --degree=1 -- --degree=2 => analyse <--degree=2> 1 Least
analyse -- f => nothing
analyse f => nothing
analyse f -- --degree 1 => nothing
analyse f --degree => nothing
analyse f --degree 0 => nothing
analyse f --degree 5 => nothing
analyse f --degree 4294967297 => nothing
analyse f --degree 00000000001 => nothing
analyse f --degree +1 => nothing
analyse f --degree -1 => nothing
analyse f --degree 1x => nothing
analyse f --degree 1.0 => nothing
analyse f --degree  => nothing
analyse f --degree= => nothing
analyse f --degree==1 => nothing
analyse f --degree -- => nothing
analyse --degree -- f => nothing
analyse f --degree --degree=1 => nothing
analyse f --degrees 1 => nothing
analyse f --degrees=1 => nothing
analyse f --degre=1 => nothing
analyse f -degree 1 => nothing
analyse f degree=1 => nothing
analyse f --degree 1 1 => nothing
analyse f --degree 1 --degree 1 => nothing
analyse f --degree=1 --degree 1 => nothing
analyse f --degree=1 - => nothing
analyse f --degree=1 -x => nothing
analyse f --degree=1 --steps=1 => nothing
analyse f --degree=1 --help => nothing
analyse --degree=1 => nothing
--degree 1 analyse f => nothing";

pub const RUN: &str = "\
run f main d => run <f> <main> <d> 10000000 None None
run -- f main d => run <f> <main> <d> 10000000 None None
run f main -- d => run <f> <main> <d> 10000000 None None
run -- f -- d => run <f> <--> <d> 10000000 None None
run -- -f -m -d => run <-f> <-m> <-d> 10000000 None None
run    => run <> <> <> 10000000 None None
run f main  --steps 1 => run <f> <main> <> 1 None None
run f main d --steps 1 => run <f> <main> <d> 1 None None
run f main d --steps=1 => run <f> <main> <d> 1 None None
run --steps 2 f main d => run <f> <main> <d> 2 None None
run f --steps 2 main d => run <f> <main> <d> 2 None None
run f main --steps=2 d => run <f> <main> <d> 2 None None
run --steps=2 -- f main d => run <f> <main> <d> 2 None None
run f main d --steps 0000000010 => run <f> <main> <d> 10 None None
run f main d --steps=0000000010 => run <f> <main> <d> 10 None None
run f main d --steps 10000000 => run <f> <main> <d> 10000000 None None
run f main d --steps 999999999 => run <f> <main> <d> 999999999 None None
run f main d --steps 1000000000 => run <f> <main> <d> 1000000000 None None
run f main d --steps 1000000001 => nothing
run f main d --steps 9999999999 => nothing
run f main d --steps 01000000000 => nothing
run f main d --steps 00000000010 => nothing
run f main d --steps 4294967296 => nothing
run f main d --steps 18446744073709551617 => nothing
run f main d --steps 0 => nothing
run f main d --steps 0000000000 => nothing
run f main d --steps -1 => nothing
run f main d --steps=-1 => nothing
run f main d --steps +1 => nothing
run f main d --steps 1e3 => nothing
run f main d --steps  => nothing
run f main d --steps= => nothing
run f main d --steps => nothing
run f main d --steps -- => nothing
run f main --steps d => nothing
run f main d --steps 1 --steps 1 => nothing
run f main d --steps=1 --steps 2 => nothing
run f main d --steps 1 --steps=1 --steps=1 --steps=1 => nothing
run f main d --cells 0 => run <f> <main> <d> 10000000 Some(0) None
run f main d --cells=16777216 => run <f> <main> <d> 10000000 Some(16777216) None
run f --cells 7 main --steps 2 d => run <f> <main> <d> 2 Some(7) None
run --steps=2 --cells=0000000007 -- f main d => run <f> <main> <d> 2 Some(7) None
run f main d --cells 16777217 => nothing
run f main d --cells -1 => nothing
run f main d --cells  => nothing
run f main d --cells => nothing
run f main d --cells 1 --cells 1 => nothing
run f main d --cells 1 --steps 1 --cells 1 => nothing
run f main d --cells 0 --steps 0 => nothing
run f main d --cell 1 => nothing
analyse f --degree 1 --cells 1 => nothing
run f main d --step 1 => nothing
run f main d --stepss=1 => nothing
run f main d -steps 1 => nothing
run f main d -steps=1 => nothing
run f main d --degree 1 => run <f> <main> <d> 10000000 None Some(1)
run f main d --steps 1 --degree=4 => run <f> <main> <d> 1 None Some(4)
run --degree 2 f --cells=3 main --steps 1 d => run <f> <main> <d> 1 Some(3) Some(2)
run f main d --cells 1048576 => run <f> <main> <d> 10000000 Some(1048576) None
run f main d --degree 0 => nothing
run f main d --degree 5 => nothing
run f main d --degree => nothing
run f main d --degree 1 --degree 1 => nothing
run f main d --degree 1 --steps 1 --cells 1 --degree 1 => nothing
run f main d --pivot least => nothing
run f main d - => nothing
run - main d => nothing
run f main d -- --steps 1 => nothing
run f main d e => nothing
run f main d e g => nothing
run f main d --steps 1 --cells 1 --degree 1 --steps 1 => nothing
run f main d -- e => nothing
run f main -- => nothing
run f main => nothing
run f => nothing
run => nothing
run --steps 1 => nothing
ru f main d => nothing
runs f main d => nothing
RUN f main d => nothing";

pub const PIVOTS: &str = "\
analyse f --degree 1 --pivot least => analyse <f> 1 Least
analyse f --degree 1 --pivot=greatest => analyse <f> 1 Greatest
analyse --pivot greatest --degree=2 f => analyse <f> 2 Greatest
analyse --pivot=least f --degree 3 => analyse <f> 3 Least
analyse --pivot=least --degree=3 -- --pivot => analyse <--pivot> 3 Least
analyse f --pivot least => nothing
analyse f --degree 1 --pivot best => nothing
analyse f --degree 1 --pivot Least => nothing
analyse f --degree 1 --pivot  => nothing
analyse f --degree 1 --pivot= => nothing
analyse f --degree 1 --pivot => nothing
analyse f --degree 1 --pivot leas => nothing
analyse f --degree 1 --pivot=least=1 => nothing
analyse f --degree 1 --pivot least --pivot least => nothing
analyse f --degree 1 --pivot least --degree 1 => nothing
analyse f g --degree 1 --pivot least => nothing
analyse --degree 1 --pivot least => nothing
types f --pivot least => nothing
certify f --degree 1 => certify <f> 1 Least
certify --degree=04 --pivot=greatest -- -f => certify <-f> 4 Greatest
certify f --pivot greatest --degree 2 => certify <f> 2 Greatest
certify  --degree=1 => certify <> 1 Least
certify f -- --degree=1 => nothing
certify f g --degree 1 => nothing
certify f --degree 1 --degree 1 => nothing
certify - --degree 1 => nothing
certify f --degree 1 --steps 1 => nothing
certify f => nothing
certify f --degree 5 => nothing
certify f --degree 1 --pivot best => nothing
certify => nothing";

pub const VERIFY: &str = "\
verify f c => verify <f> <c>
verify -- -f -- => verify <-f> <-->
verify f  => verify <f> <>
verify f -- c => verify <f> <c>
verify f c -- => verify <f> <c>
verify f => nothing
verify => nothing
verify f c d => nothing
verify f c d e => nothing
verify f -c => nothing
verify f c --degree 1 => nothing";

pub const TRIAL: &str = "\
trial 1 => trial 1
trial 100 => trial 100
trial 0000000020 => trial 20
trial -- 7 => trial 7
trial 0 => nothing
trial 101 => nothing
trial 00000000020 => nothing
trial +1 => nothing
trial -1 => nothing
trial 1x => nothing
trial  => nothing
trial => nothing
trial 1 2 => nothing
trial --count 1 => nothing
trial 1 --degree 1 => nothing
trials 1 => nothing";
