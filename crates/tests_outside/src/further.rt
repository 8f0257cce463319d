// The same tables for commands with prices, of two programs, and of powers.
pub const PRICED: &str = "\
priced f p --degree 1 => priced <f> <p> 1
priced f p --degree=4 => priced <f> <p> 4
priced f p --degree 0000000002 => priced <f> <p> 2
priced --degree 2 f p => priced <f> <p> 2
priced --degree=2 f p => priced <f> <p> 2
priced f --degree 3 p => priced <f> <p> 3
priced f --degree=3 p => priced <f> <p> 3
priced --degree 1 -- f p => priced <f> <p> 1
priced f --degree=1 -- p => priced <f> <p> 1
priced f p --degree=1 -- => priced <f> <p> 1
priced --degree=1 -- -f --degree => priced <-f> <--degree> 1
priced --degree=1 -- -- - => priced <--> <-> 1
priced   --degree=1 => priced <> <> 1
priced f p=1 --degree=1 => priced <f> <p=1> 1
priced f p => nothing
priced -- f p => nothing
priced f p -- --degree 1 => nothing
priced f p -- --degree=1 => nothing
priced f --degree 1 => nothing
priced --degree 1 => nothing
priced => nothing
priced f p q --degree 1 => nothing
priced f p q r --degree 1 => nothing
priced f p -- q --degree => nothing
priced f p --degree => nothing
priced f p --degree= => nothing
priced f p --degree  => nothing
priced f p --degree 0 => nothing
priced f p --degree=0 => nothing
priced f p --degree 5 => nothing
priced f p --degree=5 => nothing
priced f p --degree +1 => nothing
priced f p --degree -1 => nothing
priced f p --degree 00000000001 => nothing
priced f p --degree 1x => nothing
priced f p --degree -- => nothing
priced f p --degree 1 --degree 1 => nothing
priced f p --degree=1 --degree 2 => nothing
priced f p --degree 1 --degree=1 => nothing
priced f p --degree=1 --degree=1 --degree=1 --degree=1 => nothing
priced f p --degree 1 --pivot least => nothing
priced f p --degree=1 --pivot=least => nothing
priced f p --degree 1 --steps 1 => nothing
priced f p --degree 1 --cells 1 => nothing
priced f p --degree 1 --prices p => nothing
priced f p --degree 1 --help => nothing
priced f - --degree 1 => nothing
priced f -p --degree 1 => nothing
priced f p -degree 1 => nothing
--degree 1 priced f p => nothing
price f p --degree 1 => nothing
priceds f p --degree 1 => nothing
Priced f p --degree 1 => nothing";

pub const SPEND: &str = "\
spend f p main d => spend <f> <p> <main> <d> 10000000 None
spend -- f p main d => spend <f> <p> <main> <d> 10000000 None
spend f p -- main d => spend <f> <p> <main> <d> 10000000 None
spend f p main d -- => spend <f> <p> <main> <d> 10000000 None
spend -- -f -- - --steps => spend <-f> <--> <-> <--steps> 10000000 None
spend     => spend <> <> <> <> 10000000 None
spend f p main d --steps 1 => spend <f> <p> <main> <d> 1 None
spend f p main d --steps=1 => spend <f> <p> <main> <d> 1 None
spend f p main d --steps 1000000000 => spend <f> <p> <main> <d> 1000000000 None
spend f p main d --steps=1000000000 => spend <f> <p> <main> <d> 1000000000 None
spend f p main d --steps 0000000010 => spend <f> <p> <main> <d> 10 None
spend f p main d --cells 0 => spend <f> <p> <main> <d> 10000000 Some(0)
spend f p main d --cells=0 => spend <f> <p> <main> <d> 10000000 Some(0)
spend f p main d --cells 16777216 => spend <f> <p> <main> <d> 10000000 Some(16777216)
spend f p main d --cells=16777216 => spend <f> <p> <main> <d> 10000000 Some(16777216)
spend f p main d --steps 2 --cells 3 => spend <f> <p> <main> <d> 2 Some(3)
spend f p main d --cells=3 --steps=2 => spend <f> <p> <main> <d> 2 Some(3)
spend --cells 3 f --steps=2 p main d => spend <f> <p> <main> <d> 2 Some(3)
spend f p --steps 2 main --cells=3 d => spend <f> <p> <main> <d> 2 Some(3)
spend --steps=2 --cells=3 -- f p main d => spend <f> <p> <main> <d> 2 Some(3)
spend f p main d --steps 0 => nothing
spend f p main d --steps=0 => nothing
spend f p main d --steps 1000000001 => nothing
spend f p main d --steps=1000000001 => nothing
spend f p main d --steps 01000000000 => nothing
spend f p main d --steps +1 => nothing
spend f p main d --steps -1 => nothing
spend f p main d --steps= => nothing
spend f p main d --steps => nothing
spend f p main d --cells 16777217 => nothing
spend f p main d --cells=16777217 => nothing
spend f p main d --cells -1 => nothing
spend f p main d --cells= => nothing
spend f p main d --cells => nothing
spend f p main d --cells 0 --steps 0 => nothing
spend f p main --steps d => nothing
spend f p main d --steps 1 --steps 1 => nothing
spend f p main d --steps=1 --steps 2 => nothing
spend f p main d --cells 1 --cells=1 => nothing
spend f p main d --cells 1 --steps 1 --cells 1 => nothing
spend f p main d --steps 1 --cells 1 --steps 1 --cells 1 => nothing
spend f p main d --degree 1 => nothing
spend f p main d --degree=1 => nothing
spend f p main d --pivot least => nothing
spend f p main d --step 1 => nothing
spend f p main d --cell=1 => nothing
spend f p main d --help => nothing
spend f p main d - => nothing
spend - p main d => nothing
spend f p -main d => nothing
spend f p main d -- --steps 1 => nothing
spend f p main d e => nothing
spend f p main d e g => nothing
spend f p main d -- e => nothing
spend f p main -- => nothing
spend f p main => nothing
spend f p => nothing
spend f => nothing
spend => nothing
spend --steps 1 => nothing
spends f p main d => nothing
SPEND f p main d => nothing";

pub const COMPARE: &str = "\
compare f g --degree 1 => compare <f> <g> 1
compare f g --degree=4 => compare <f> <g> 4
compare --degree 2 f g => compare <f> <g> 2
compare g --degree=03 f => compare <g> <f> 3
compare f f --degree 1 => compare <f> <f> 1
compare --degree=1 -- -f -- => compare <-f> <--> 1
compare   --degree 1 => compare <> <> 1
compare f g => nothing
compare -- f g => nothing
compare f --degree 1 => nothing
compare --degree 1 => nothing
compare => nothing
compare f g h --degree 1 => nothing
compare f g h i --degree 1 => nothing
compare f g --degree => nothing
compare f g --degree 0 => nothing
compare f g --degree=5 => nothing
compare f g --degree 1 --degree 1 => nothing
compare f g --degree=1 --degree=2 => nothing
compare f g --degree 1 --pivot least => nothing
compare f g --degree 1 --pivot=greatest => nothing
compare f g --degree 1 --cells 1 => nothing
compare f - --degree 1 => nothing
compare -f g --degree 1 => nothing
compare f g -- --degree 1 => nothing
compares f g --degree 1 => nothing";

pub const POWERS: &str = "\
powers f --degree 1 => powers <f> 1
powers f --degree=4 => powers <f> 4
powers --degree 2 f => powers <f> 2
powers --degree=03 f => powers <f> 3
powers --degree=1 -- -f => powers <-f> 1
powers  --degree 1 => powers <> 1
powers f --degree 1 -- => powers <f> 1
powers f => nothing
powers -- f => nothing
powers --degree 1 => nothing
powers => nothing
powers f g --degree 1 => nothing
powers f g h --degree 1 => nothing
powers f --degree => nothing
powers f --degree 0 => nothing
powers f --degree=0 => nothing
powers f --degree 5 => nothing
powers f --degree=5 => nothing
powers f --degree 1 --degree 1 => nothing
powers f --degree=1 --degree 2 => nothing
powers f --degree 1 --pivot least => nothing
powers f --degree=1 --pivot=least => nothing
powers f --degree 1 --cells 5 => nothing
powers f --degree 1 --steps 5 => nothing
powers - --degree 1 => nothing
powers -f --degree 1 => nothing
powers f -- --degree 1 => nothing
power f --degree 1 => nothing";
