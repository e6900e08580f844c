//! Views drawn as SVG, and hundredths of a pixel.
use crate::answer::label_of;
use crate::cases::{Table, hold, lines_told, view_of};
use ml_answer::{SvgView, write_px};
use std::alloc::Global;
use std::process::Abort;

/// Hundredths, and how they are written.
struct Hundredths;

impl Table for Hundredths {
    const LINES: &'static str = "\
0 => 0.00
5 => 0.05
-1 => -0.01
-50 => -0.50
99 => 0.99
100 => 1.00
-100 => -1.00
12345 => 123.45
-120005 => -1200.05
9223372036854775807 => 92233720368547758.07
-9223372036854775808 => -92233720368547758.08";

    fn told(rt: &impl Abort, alloc: Global, input: &str) -> String {
        let v = input.parse::<i64>().ok().expect(rt, "a number");
        write_px(alloc, v)
            .expect(rt, "memory")
            .as_str()
            .to_string(alloc)
            .expect(rt, "memory")
    }
}

#[test]
fn hundredths_have_two_decimals(rt: HostRuntime) {
    hold::<Hundredths>(&rt, rt.alloc())
}

/// Draws the label that a text writes, as `X Y BOX ..: PIECES`.
fn draw(rt: &impl Abort, alloc: Global, drawing: &mut SvgView, text: &str) {
    let (places, pieces) = text.split_once(": ").expect(rt, "pieces");
    drawing
        .add(&label_of(rt, alloc, "A", places, pieces))
        .expect(rt, "memory");
}

/// `CX CY W H SCALE|X Y BOX ..: PIECES|..`, and the drawing, with a bar for each line feed.
///
/// In the second view the first label's anchor lies 5 units left of the centre and 7 above it, at 3/2
/// units a pixel -333.33 and -466.67 hundredths of a pixel; the second's lies 7 right and 5 below,
/// 466.67 and 333.33 hundredths. All four are rounded down.
struct Drawings;

impl Table for Drawings {
    const LINES: &'static str =
        r#"0 0 2 4096 1 => <svg xmlns="http://www.w3.org/2000/svg" width="2" height="4096" viewBox="0 0 2 4096">|</svg>|
10 -20 640 480 3/2|5 -13 -30,-6,-10,4 -10,-5,10,5 10,245,512,260: Zü/ri/ch|17 -25 -10,-5,10,5: b => <svg xmlns="http://www.w3.org/2000/svg" width="640" height="480" viewBox="0 0 640 480">|<text x="286.66" y="241.33" font-size="10" textLength="20">Zü</text>|<text x="306.66" y="240.33" font-size="10" textLength="20">ri</text>|<text x="326.66" y="-9.67" font-size="15" textLength="502">ch</text>|<text x="314.66" y="248.33" font-size="10" textLength="20">b</text>|</svg>|
85416942 473768861 1024 768 100|85416942 473768861 -27,-10,28,10: Zürich => <svg xmlns="http://www.w3.org/2000/svg" width="1024" height="768" viewBox="0 0 1024 768">|<text x="485.00" y="394.00" font-size="20" textLength="55">Zürich</text>|</svg>|
-2000000000 -2000000000 2 2 1/65536|2000000000 2000000000 0,0,1,1: a => <svg xmlns="http://www.w3.org/2000/svg" width="2" height="2" viewBox="0 0 2 2">|<text x="262144000000001.00" y="-262143999999999.00" font-size="1" textLength="1">a</text>|</svg>|
0 0 100 100 1|0 0 0,0,1,1 0,0,1,1 0,0,1,1: a & <b>//&amp;"'🌍 => <svg xmlns="http://www.w3.org/2000/svg" width="100" height="100" viewBox="0 0 100 100">|<text x="50.00" y="50.00" font-size="1" textLength="1">a &amp; &lt;b&gt;</text>|<text x="50.00" y="50.00" font-size="1" textLength="1"></text>|<text x="50.00" y="50.00" font-size="1" textLength="1">&amp;amp;"'🌍</text>|</svg>|"#;

    fn told(rt: &impl Abort, alloc: Global, input: &str) -> String {
        let mut parts = input.split('|');
        let view = view_of(rt, alloc, parts.next().expect(rt, "a view"));
        let mut drawing = SvgView::new(alloc, &view).expect(rt, "memory");
        for part in parts {
            draw(rt, alloc, &mut drawing, part);
        }
        lines_told(rt, alloc, drawing.finish().expect(rt, "memory").as_slice())
    }
}

#[test]
fn views_are_drawn(rt: HostRuntime) {
    hold::<Drawings>(&rt, rt.alloc())
}
