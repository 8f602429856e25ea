//! What stands round the lanes: the size, the looks, the axis and the legend.
ghost use Rattle.std.specs.Prelude.{◌≡◌, ◌≤◌, ◌++◌, OnOk, map};
ghost use Rattle.lane_drawing.specs.Scale.{IsScale, first_multiple, last_multiple};
ghost use Rattle.lane_drawing.specs.Drawing.{all_lines, head_line, head_lines, axis_line, axis_lines, legend_lines};

use crate::Scale;
use crate::scale::push_pixels;
use sloth_base::Result;
use text_pieces::line;
use text_pieces::pieces::Piece::{Number, Word};
use trace_text::LineText;

#[tactic(auto, unfolding(crate::specs::Drawing::head_line))]
fn push_size(text: &mut Vec<u8>, scale: Scale, rows: u32) -> Result<()>
    requires scale { IsScale scale }
    requires rows { rows ≤ 33 }
    ensures { OnOk result (text.new.items ≡ text.old.items ++ head_line scale rows) }
{
    let (width, height) = (scale.left + 1052, 122 + 40 * rows);
    line!(text;
        Word(b"<svg xmlns=\"http://www.w3.org/2000/svg\" width=\""), Number(width), Word(b"\" height=\""),
        Number(height), Word(b"\" viewBox=\"0 0 "), Number(width), Word(b" "), Number(height),
        Word(b"\" font-family=\"system-ui, sans-serif\" font-size=\"13\">\n"))
}

// How each class looks, on light and on dark screens, that paper has the whole width, what is behind all, and the unit
// of the axis, above its end.
const STYLE: [&[u8]; 29] = [
    b"<style>\n",
    b"text,.a{fill:#1a2433}\n",
    b".n{font-family:ui-monospace,monospace}\n",
    b".p{fill:#fff}\n",
    b".g{stroke:#d8dee6}\n",
    b".run{fill:#2266aa}\n",
    b".pre,.ser{fill:#9dbfe0;stroke:#2266aa;stroke-width:.6}\n",
    b".ready{fill:none;stroke:#2266aa;stroke-width:1.4;stroke-dasharray:4 3}\n",
    b".wait{fill:#8a94a3}\n",
    b".l{fill:none;stroke:#c2241a}\n",
    b".t,.m{fill:#1a2433;stroke:#1a2433}\n",
    b".m{stroke-width:.7}\n",
    b".k{fill:#c2571a}\n",
    b"@media screen and (prefers-color-scheme:dark){\n",
    b"text,.a{fill:#e6ebf2}\n",
    b".p{fill:#12161c}\n",
    b".g{stroke:#2c3542}\n",
    b".run{fill:#5aa2e6}\n",
    b".pre,.ser{fill:#2f4d6e;stroke:#5aa2e6}\n",
    b".ready{stroke:#5aa2e6}\n",
    b".wait{fill:#7b8796}\n",
    b".l{stroke:#ff8a7a}\n",
    b".t,.m{fill:#e6ebf2;stroke:#e6ebf2}\n",
    b".k{fill:#e08a4d}\n",
    b"}\n",
    b"@media print{svg{width:100%;height:auto}}\n",
    b"</style>\n",
    b"<rect class=\"p\" width=\"100%\" height=\"100%\"/>\n",
    b"<text x=\"100%\" y=\"16\" dx=\"-32\" text-anchor=\"end\" font-size=\"11\">instructions</text>\n",
];

fn push_lines(text: &mut Vec<u8>, lines: &[&[u8]]) -> Result<()>
    ensures { OnOk result (text.new.items ≡ text.old.items ++ all_lines (map (λ line. line.now) lines.now)) }
{
    for line in lines {
        text.extend_from_slice(line)?;
    }
    Ok(())
}

/// Appends the first line, how each class looks, the unit of the axis, and which counts are shown.
#[tactic(auto, unfolding(crate::specs::Drawing::title_line))]
pub fn push_head(text: &mut Vec<u8>, scale: Scale, rows: u32) -> Result<()>
    requires scale { IsScale scale }
    requires rows { rows ≤ 33 }
    ensures { OnOk result (text.new.items ≡ text.old.items ++ head_lines scale rows) }
{
    push_size(text, scale, rows)?;
    push_lines(text, &STYLE)?;
    line!(text;
        Word(b"<text x=\""), Number(scale.left), Word(b"\" y=\"16\">counts "), Number(scale.from),
        Word(b" to "), Number(scale.to), Word(b"</text>\n"))
}

// A multiple of the axis' step, with a line down through so many rows.
#[tactic(auto, unfolding(crate::specs::Drawing::axis_line, crate::specs::Drawing::count_line))]
fn axis_line(scale: Scale, rows: u32, i: u32) -> LineText
    requires scale { IsScale scale }
    requires rows { rows ≤ 33 }
    requires behind { first_multiple scale ≤ i }
    requires within { i ≤ last_multiple scale }
    ensures { result ≡ axis_line scale rows i }
{
    let count = i * scale.axis_step();
    let mut line = LineText::new();
    line.push(b"<path class=\"g\" d=\"M");
    push_pixels(&mut line, scale.place(count));
    line.push(b" 38V");
    line.push_number(44 + 40 * rows);
    line.push(b"\"/><text x=\"");
    push_pixels(&mut line, scale.place(count));
    line.push(b"\" y=\"32\" text-anchor=\"middle\" font-size=\"11\">");
    line.push_number(count);
    line.push(b"</text>\n");
    line
}

/// Appends the axis.
pub fn push_axis(text: &mut Vec<u8>, scale: Scale, rows: u32) -> Result<()>
    requires scale { IsScale scale }
    requires rows { rows ≤ 33 }
    ensures { OnOk result (text.new.items ≡ text.old.items ++ axis_lines scale rows) }
{
    for i in scale.first_multiple()..scale.last_multiple() + 1 {
        text.extend_from_slice(axis_line(scale, rows, i).bytes())?;
    }
    Ok(())
}

const LEGEND: [&[u8]; 12] = [
    b"<rect class=\"run\" x=\"0\" y=\"0\" width=\"28\" height=\"24\"/><text x=\"36\" y=\"16\">runs</text>\n",
    b"<rect class=\"ser\" x=\"96\" y=\"0\" width=\"28\" height=\"24\"/><text x=\"132\" y=\"16\">runs kernel code</text>\n",
    b"<rect class=\"pre\" x=\"262\" y=\"6\" width=\"28\" height=\"12\"/><text x=\"298\" y=\"16\">preempted</text>\n",
    b"<rect class=\"ready\" x=\"390\" y=\"6\" width=\"28\" height=\"12\"/><text x=\"426\" y=\"16\">ready</text>\n",
    b"<rect class=\"wait\" x=\"488\" y=\"11\" width=\"28\" height=\"2\"/><text x=\"524\" y=\"16\">waiting</text>\n",
    b"<rect class=\"k\" x=\"596\" y=\"6\" width=\"28\" height=\"12\"/><text x=\"632\" y=\"16\">kernel code</text>\n",
    b"<path class=\"a\" d=\"M8 44l-4 -6h8z\"/><text x=\"20\" y=\"44\">arrival</text>\n",
    b"<path class=\"l\" d=\"M100 44l-4 -6h8z\"/><text x=\"112\" y=\"44\">lost arrival</text>\n",
    b"<rect class=\"t\" x=\"226\" y=\"32\" width=\"1\" height=\"16\"/><text x=\"236\" y=\"44\">tick</text>\n",
    b"<path class=\"a\" d=\"M304 36l4 4l-4 4l-4 -4z\"/><text x=\"316\" y=\"44\">alarm expires</text>\n",
    b"<path class=\"m\" d=\"M440 30v20m-3 -6l3 6l3 -6z\"/><text x=\"452\" y=\"44\">activates, wakes</text>\n",
    b"</g>\n",
];

/// Appends what the looks and the marks mean, below so many rows.
#[tactic(auto, unfolding(crate::specs::Drawing::legend_line))]
pub fn push_legend(text: &mut Vec<u8>, scale: Scale, rows: u32) -> Result<()>
    requires scale { IsScale scale }
    requires rows { rows ≤ 33 }
    ensures { OnOk result (text.new.items ≡ text.old.items ++ legend_lines scale rows) }
{
    line!(text;
        Word(b"<g transform=\"translate("), Number(scale.left), Word(b" "), Number(60 + 40 * rows),
        Word(b")\">\n"))?;
    push_lines(text, &LEGEND)
}
