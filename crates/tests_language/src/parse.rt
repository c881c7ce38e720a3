//! Texts, each with the shape of its tree or the line on which it is refused.
ghost use Rattle.std.specs.Prelude.{◌≤◌, length};

mod shape;

use shape::add_block;
use std::alloc::Global;
use vt_lex::{LexFault, lex};
use vt_parse::{SyntaxFault, parse};
use vt_tree::Block;

/// Texts, each with the shape of its tree or its fault behind ` => `, below headings that begin with `-- `. In a text `\n`
/// is a newline, and in a shape `\t` a tab.
const ROWS: &str = r#"-- literals and names are themselves
nil => {0 1:nil}
true => {0 1:true}
false => {0 1:false}
x => {0 1:x}
:x => {0 1::x}
007 => {0 1:7}
9223372036854775807 => {0 1:9223372036854775807}
0.50 => {0 1:1/2}
2.0 => {0 1:2/1}
"a\tb\"" => {0 1:"a\tb""}
'it\'s' => {0 1:"it's"}
-- calls have their arguments
play 60 => {0 1:(play 60)}
play 60, amp: 2, if: :x => {0 1:(play 60 amp: 2 if: :x)}
play amp: 2, pan: -1 => {0 1:(play amp: 2 pan: (- 1))}
puts x, 1 + 2 => {0 1:(puts x (Sum 1 + 2))}
f() => {0 1:(f())}
f(1, g(2), a: 3) => {0 1:(f() 1 (g() 2) a: 3)}
f (g 1) => {0 1:(f <(g 1)>)}
f [1], x => {0 1:(f [ 1] x)}
f !x => {0 1:(f (! x))}
x -1 => {0 1:(x (- 1))}
x -y => {0 1:(x (- y))}
x - 1 => {0 1:(Sum x - 1)}
x-1 => {0 1:(Sum x - 1)}
-- parentheses are counted and make no node
(1) => {0 1:<1>}
((x)) => {0 1:<<x>>}
(f 1) => {0 1:<(f 1)>}
(\n1\n) => {0 1:<1>}
(1 + 2) * 3 => {0 1:(Term <(Sum 1 + 2)> * 3)}
-(x) => {0 1:(- <x>)}
(x).y => {0 1:(. <x> (y))}
-- lists, indexes and dots nest
[] => {0 1:[]}
[1, [x, 2], :a] => {0 1:[ 1 [ x 2] :a]}
x[0] => {0 1:(@ x 0)}
x[0][y + 1] => {0 1:(@ (@ x 0) (Sum y + 1))}
x [0] => {0 1:(x [ 0])}
x.y => {0 1:(. x (y))}
x . y => {0 1:(. x (y))}
x.y().z[1] => {0 1:(@ (. (. x (y())) (z)) 1)}
x.y(1, a: 2) => {0 1:(. x (y() 1 a: 2))}
x.map { |a| a + 1 } => {0 1:(. x (map {1 | a | 1:(Sum a + 1)}))}
x.y(1) {\n a\n\n b\n} => {0 1:(. x (y() 1 {1 2:a 4:b}))}
get[0] => {0 1:(get() 0)}
get[:a][1].x => {0 1:(. (@ (get() :a) 1) (x))}
get [1] => {0 1:(get [ 1])}
x.get[0] => {0 1:(@ (. x (get)) 0)}
(get)[0] => {0 1:(@ <get> 0)}
-- operators bind by their level
-x => {0 1:(- x)}
!x.y => {0 1:(! (. x (y)))}
not x => {0 1:(! x)}
a - -b => {0 1:(Sum a - (- b))}
a * b / c % d => {0 1:(Term a * b / c % d)}
a + b - c => {0 1:(Sum a + b - c)}
a +\n\nb => {0 1:(Sum a + b)}
a + b * c => {0 1:(Sum a + (Term b * c))}
a * b + c => {0 1:(Sum (Term a * b) + c)}
a && b && c => {0 1:(Conj a and b and c)}
a || b || c => {0 1:(Disj a or b or c)}
a && b || c && d => {0 1:(Disj (Conj a and b) or (Conj c and d))}
a and b or c => {0 1:(Expr a and b or c)}
a or b || c => {0 1:(Expr a or (Disj b or c))}
not a and not b => {0 1:(Expr (! a) and (! b))}
not a || b => {0 1:(! (Disj a or b))}
a && b == c + d * -e => {0 1:(Conj a and (Comp b == (Sum c + (Term d * (- e)))))}
-- comparisons have one operator
a == b => {0 1:(Comp a == b)}
a != b => {0 1:(Comp a != b)}
a < b => {0 1:(Comp a < b)}
a <= b => {0 1:(Comp a <= b)}
a > b => {0 1:(Comp a > b)}
a >= b + 1 => {0 1:(Comp a >= (Sum b + 1))}
a == b == c => syntax 1
-- statements assign and take conditions
x = 1 => {0 1:(= x 1)}
x += y 1 => {0 1:(+= x (y 1))}
x -= -1 => {0 1:(-= x (- 1))}
x *= f do\nend => {0 1:(*= x (f {1}))}
play 1 if x => {0 1:((play 1) if x)}
x = 1 unless y > 2 => {0 1:((= x 1) unless (Comp y > 2))}
x if f 1 => {0 1:(x if (f 1))}
if x\n1\nend unless y => {0 1:((Iff (if x 2:1)) unless y)}
-- branches stand in their order
if x\nend => {0 1:(Iff (if x))}
if x; 1; end => {0 1:(Iff (if x 1:1))}
if x :a\nend => {0 1:(Iff (if (x :a)))}
if x\nelse :a\nend => {0 1:(Iff (if x) (else 2::a))}
unless x\n1\nelse\nend => {0 1:(Iff (unless x 2:1) (else))}
unless x\n1\nelsif y\n2\nelsif z\n3\n4\nelse\n5\nend => {0 1:(Iff (unless x 2:1) (if y 4:2) (if z 6:3 7:4) (else 9:5))}
if x\nif y\n1\nend\nend => {0 1:(Iff (if x 2:(Iff (if y 3:1))))}
-- blocks are numbered by their first token
loop do\nplay 1\nend => {0 1:(loop {1 2:(play 1)})}
loop do\n1\nend if x => {0 1:((loop {1 2:1}) if x)}
live_loop :x do\nend => {0 1:(live_loop :x {1})}
f(1) do\nend => {0 1:(f() 1 {1})}
get[0] do\nend => {0 1:(get() 0 {1})}
5.times do |i|\ni\nend => {0 1:(. 5 (times {1 | i | 2:i}))}
f do |a, b|; a; b; end => {0 1:(f {1 | a b | 1:a 1:b})}
a do\nb do\nend\nend\nc do\nend => {0 1:(a {1 2:(b {2})}) 5:(c {3})}
x.map { |a| a.map { } }.y { 1 } => {0 1:(. (. x (map {1 | a | 1:(. a (map {2}))})) (y {3 1:1}))}
f x.map { 1 } do\n2\nend => {0 1:(f (. x (map {1 1:1})) {2 2:2})}
-- lines without a statement are nothing
 => {0}
\n\n => {0}
# x => {0}
x\n => {0 1:x}
x\n\n\ny => {0 1:x 4:y}
;x;;y => {0 1:x 1:y}
\n x # y\n => {0 2:x}
-- texts are refused on their line
puts :n, => syntax 1
play ( => syntax 1
x --:n => syntax 1
(f) do\nend => syntax 1
r.tick { } do\nend => syntax 1
[:n, a: :n] => syntax 1
f(a: :n, :n) => syntax 1
f a: :n, :n => syntax 1
x\nif x => syntax 2
if x\nend\nend => syntax 3
if x\n:n\nelse\n:n\nelsif y\n:n\nend => syntax 5
x = if y => syntax 1
:n do\nend => syntax 1
:n + f do\nend => syntax 1
-f do\nend => syntax 1
f g :n => syntax 1
f(g :n) => syntax 1
f do |a,|\nend => syntax 1
f do || end => syntax 1
x.map {\n:n => syntax 2
f { } => syntax 1
while x => syntax 1
x.if => syntax 1
:n if :n if :n => syntax 1
:n :n => syntax 1
f :n :n => syntax 1
] => syntax 1
[:n,] => syntax 1"#;

/// The tree of a text, or where it is refused.
fn read(alloc: Global, text: &[u8]) -> Result<Result<Block, SyntaxFault>, LexFault>
    requires { length text.now ≤ 1048576 }
{
    let tokens = lex(alloc, text, 1)?;
    Ok(parse(alloc, text, &tokens))
}

/// Whether the tree has this shape.
fn has_shape(alloc: Global, block: &Block, want: &str) -> bool {
    let mut shape = String::new(alloc);
    add_block(&mut shape, block).is_ok() && shape.as_str() == want
}

/// Whether the fault is told so.
fn is_told(alloc: Global, fault: SyntaxFault, want: &str) -> bool {
    match fault.to_string(alloc) {
        Ok(words) => words.as_str() == want,
        Err(_) => false,
    }
}

/// Whether the text has a tree of this shape, or this fault.
fn has(alloc: Global, text: &[u8], want: &str) -> bool {
    if text.len() > 1000 {
        return false;
    }
    match read(alloc, text) {
        Ok(Ok(block)) => has_shape(alloc, &block, want),
        Ok(Err(fault)) => is_told(alloc, fault, want),
        Err(_) => false,
    }
}

/// Whether the text of a row has the answer behind it.
fn holds(alloc: Global, row: &str) -> Option<bool> {
    let (text, want) = row.split_once(" => ")?;
    let text = text.replace(alloc, "\\n", "\n").ok()?;
    let want = want.replace(alloc, "\\t", "\t").ok()?;
    Some(has(alloc, text.as_bytes(), want.as_str()))
}

/// The first row that does not hold, or nothing.
fn first_wrong(alloc: Global) -> Option<&'static str> {
    for row in ROWS.lines() {
        if !row.starts_with("-- ") && holds(alloc, row) != Some(true) {
            return Some(row);
        }
    }
    None
}

#[test]
fn texts_have_their_trees(rt: HostRuntime) {
    assert_eq!(rt; first_wrong(rt.alloc()), None);
}
