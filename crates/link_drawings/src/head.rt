//! The head of a picture: styles, title and legends.

use crate::caps::Side;
use crate::frame::{Frame, LEFT};
use crate::history::History;
use crate::ink::Ink;
use crate::labels::letters;
use crate::layout::Layout;
use crate::options::Options;

/// The most pairs that a legend names.
const MOST_NAMED: usize = 12;

/// The most letters of a title.
const MOST_LETTERS: usize = 90;

/// The styles of the shapes. Red is for what is full alone.
pub(crate) const STYLE: &str = r#"<style>.b{fill:#fff}text{font:22px sans-serif;fill:#333}
text.c{font:bold 30px sans-serif}text.h{font:bold 22px sans-serif}
.n{text-anchor:end}.t{text-anchor:middle;fill:#666}text.i{font:17px sans-serif}
path{fill:none}.g{stroke:#e4e4e4;stroke-width:2}.f{stroke:#bbb;stroke-width:1}
.w{stroke:#8a7d6c;stroke-width:2;stroke-dasharray:3 3}.l{stroke:#888;stroke-width:2}
.a{stroke:#222;stroke-width:3}.d{stroke:#222;stroke-width:3}.k{stroke:#222;stroke-width:2}
.s{fill:url(#hatch)}.hl{stroke:#555;stroke-width:2}
.m{fill:#fff;fill-opacity:0}.e{stroke:#fff;stroke-width:1}.z{fill:#8899aa}
.u1{fill:#d00;fill-opacity:.25}.u2{fill:#d00;fill-opacity:.5}.u3{fill:#d00;fill-opacity:.75}.u4{fill:#d00}
.p0{fill:#4c78a8}.p1{fill:#e39b3a}.p2{fill:#54a24b}.p3{fill:#a66f9c}.p4{fill:#5fb0ac}.p5{fill:#c9a94f}
.p6{fill:#7d62b0}.p7{fill:#79b4e0}.p8{fill:#8fbf5a}.p9{fill:#9c755f}.p10{fill:#bf94d6}.p11{fill:#5d7186}
@media(prefers-color-scheme:dark){.b{fill:#181818}text{fill:#ddd}.t{fill:#aaa}.e{stroke:#181818}
.g{stroke:#333}.f{stroke:#555}.w{stroke:#a89880}.l{stroke:#999}.a,.d,.k{stroke:#eee}.hl{stroke:#bbb}
.u1,.u2,.u3,.u4{fill:#f44}.z{fill:#778899}}</style>
<defs><pattern id="hatch" width="8" height="8" patternUnits="userSpaceOnUse">
<path class="hl" d="M-2 2l4-4M0 8l8-8M6 10l4-4"/></pattern></defs>"#;

/// What the shapes mean.
pub(crate) const LEGEND: &str =
    r#"<path class="w" d="M240 104H280"/><text x="290" y="112">waits</text>
<path class="p0" d="M380 116V92H420V116z"/><text x="430" y="112">is sent (height: its rate)</text>
<path class="s" d="M720 116V92H760V116z"/><text x="770" y="112">stalls</text>
<path class="l" d="M860 104H900"/><text x="910" y="112">in latency</text>
<path class="a" d="M1050 94v16"/><text x="1062" y="112">arrives</text>
<path class="d" d="M1160 96l14 14m0-14l-14 14"/><text x="1184" y="112">is dropped</text>
<path class="k" d="M1320 104H1360"/><text x="1370" y="112">cap</text>
<path class="u2" d="M1440 110V98H1460V110z"/><path class="u4" d="M1460 110V98H1480V110z"/>
<text x="1490" y="112">is full, half of the time and all</text>"#;

/// The title, and what the run has.
pub(crate) fn draw_title(ink: &mut Ink, history: &History, options: &Options, frame: Frame) {
    let title = match front(options.title.as_str()) {
        "" => "Run of a script",
        title => title,
    };
    ink.text("<title>");
    ink.marked(title);
    ink.put_all("</title>\n<text class=\"c\" x=\"{}\" y=\"38\">", &[LEFT]);
    ink.marked(title);
    ink.text("</text>\n");
    draw_contents(ink, history, frame);
}

/// How much the run has.
fn draw_contents(ink: &mut Ink, history: &History, frame: Frame) {
    ink.put_all("<text x=\"{}\" y=\"72\">", &[LEFT]);
    ink.count("", history.messages as u64, "message");
    ink.count(" of ", history.tracks.len() as u64, "ordered pair");
    ink.moment(", ", frame.first);
    ink.moment(" to ", frame.last);
    if history.refused > 0 {
        ink.count("; ", history.refused, "refused call");
    }
    ink.text("</text>\n");
}

/// The front of a text that is too long for a line.
fn front(text: &str) -> &str {
    match text.char_indices().nth(MOST_LETTERS) {
        Some((end, _)) => match text.get(..end) {
            Some(front) => front,
            None => text,
        },
        None => text,
    }
}

/// How high the legend of pairs is.
pub(crate) fn legend_height(history: &History, layout: &Layout) -> u64 {
    if layout.is_detailed && layout.pairs.len() <= MOST_NAMED && !history.tracks.is_empty() {
        36
    } else {
        0
    }
}

/// Which colour each pair has, where they are few.
pub(crate) fn draw_pair_legend(ink: &mut Ink, history: &History, layout: &Layout) {
    if legend_height(history, layout) == 0 {
        return;
    }
    let mut x = LEFT;
    for pair in &layout.pairs {
        if let Some(track) = history.tracks.get(pair) {
            let width = letters(Side::Link(pair.0, pair.1))
                .saturating_mul(13)
                .saturating_add(56);
            if x.saturating_add(width) > 1960 {
                return;
            }
            draw_colour(ink, x, *pair, track.shade);
            x = x.saturating_add(width);
        }
    }
}

/// The colour of a pair, at that place of the legend.
fn draw_colour(ink: &mut Ink, x: u64, pair: (u64, u64), shade: usize) {
    let (end, name) = (x.saturating_add(24), x.saturating_add(32));
    let text = "<path class=\"p{}\" d=\"M{} 154V134H{}V154z\"/><text x=\"{}\" y=\"152\">";
    ink.put_all(text, &[shade as u64, x, end, name]);
    ink.put_all("{} → {}</text>\n", &[pair.0, pair.1]);
}
