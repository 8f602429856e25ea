//! Where counts stand in a picture, and the lines of arrivals and marks.
ghost use Rattle.std.specs.Prelude.{◌≡◌, ◌≤◌, ◌+◌, ◌++◌, length};
ghost use Rattle.sloth_base.specs.Limits.{picture_limit, count_limit, name_limit};
ghost use Rattle.lane_drawing.specs.Scale.{IsScale, span, place, pixels, axis_step, steps, first_step, first_multiple, last_multiple};
ghost use Rattle.lane_drawing.specs.Arrivals.{arrival_class, arrival_end, arrival_line};
ghost use Rattle.lane_drawing.specs.Marks.{arrow_head, arrow_line, expiry_line};

use sloth_base::Arrival;
use trace_text::LineText;

/// The counts of a picture: from one to below another, in a chart that begins so many pixels from the left.
#[derive(Clone, Copy)]
pub struct Scale {
    pub left: u32,
    pub from: u32,
    pub to: u32,
}

// The first step that goes at most 12 times into so many counts, or 10,000.
fn first_step(counts: u32) -> u32
    ensures is { result ≡ first_step steps counts }
    ensures some { 1 ≤ result }
    ensures short { result ≤ 10000 }
{
    match counts {
        0..=12 => 1,
        13..=24 => 2,
        25..=60 => 5,
        61..=120 => 10,
        121..=240 => 20,
        241..=600 => 50,
        601..=1200 => 100,
        1201..=2400 => 200,
        2401..=6000 => 500,
        6001..=12000 => 1000,
        12001..=24000 => 2000,
        24001..=60000 => 5000,
        _ => 10_000,
    }
}

impl Scale {
    // How many counts there are, and at least one.
    fn span(self) -> u32
        requires { IsScale self }
        ensures is { result ≡ span self }
        ensures some { 1 ≤ result }
        ensures short { result ≤ picture_limit }
    {
        (self.to - self.from).max(1)
    }

    /// The place of a count from the left, in hundredths of a pixel.
    pub fn place(self, count: u32) -> u32
        requires scale { IsScale self }
        requires behind { self.from ≤ count }
        requires within { count ≤ self.to }
        ensures is { result ≡ place self count }
        ensures near { result ≤ 162000 }
    {
        let behind = u64::from(count - self.from) * 102_000 / u64::from(self.span());
        self.left * 100 + behind as u32
    }

    /// The step of the axis, in counts.
    pub fn axis_step(self) -> u32
        requires { IsScale self }
        ensures is { result ≡ axis_step self }
        ensures some { 1 ≤ result }
        ensures short { result ≤ 10000 }
    {
        first_step(self.span())
    }

    /// The first multiple of the axis' step that is a count of the picture, as how often the step is taken.
    pub fn first_multiple(self) -> u32
        requires { IsScale self }
        ensures is { result ≡ first_multiple self }
        ensures few { result ≤ count_limit }
    {
        (self.from + self.axis_step() - 1) / self.axis_step()
    }

    /// The last one.
    pub fn last_multiple(self) -> u32
        requires { IsScale self }
        ensures is { result ≡ last_multiple self }
        ensures few { result ≤ count_limit }
    {
        self.to / self.axis_step()
    }
}

/// Appends a place in pixels, with two decimals.
#[tactic(auto, unfolding(crate::specs::Scale::pixels))]
pub fn push_pixels(line: &mut LineText, place: u32)
    requires { length line.old + 13 ≤ 256 }
    ensures is { line.new ≡ line.old ++ pixels place }
    ensures short { length line.new ≤ length line.old + 13 }
{
    line.push_number(place / 100);
    let digits = [b'0' + (place / 10 % 10) as u8, b'0' + (place % 10) as u8];
    line.push(b".");
    line.push(&digits);
}

fn arrival_class(lost: bool) -> &'static [u8]
    ensures is { result.now ≡ arrival_class lost }
    ensures short { length result.now ≤ 1 }
{
    if lost { b"l" } else { b"a" }
}

fn arrival_end(lost: bool) -> &'static [u8]
    ensures is { result.now ≡ arrival_end lost }
    ensures short { length result.now ≤ 6 }
{
    if lost { b", lost" } else { b"" }
}

/// An arrival at its moment in the lane of a name, whose axis is so many pixels from the top: hollow, where it is lost.
#[tactic(auto, unfolding(crate::specs::Arrivals::arrival_line))]
pub fn arrival_line(scale: Scale, name: &[u8], axis: u32, arrival: &Arrival, lost: bool) -> LineText
    requires scale { IsScale scale }
    requires name { length name.now ≤ name_limit }
    requires low { 13 ≤ axis }
    requires behind { scale.from ≤ arrival.now.at }
    requires within { arrival.now.at ≤ scale.to }
    ensures { result ≡ arrival_line scale name.now axis arrival.now lost }
{
    let (left, top) = (scale.place(arrival.at), axis - 13);
    let mut line = LineText::new();
    line.push(b"<path class=\"");
    line.push(arrival_class(lost));
    line.push(b"\" d=\"M");
    push_pixels(&mut line, left);
    line.push(b" ");
    line.push_number(top);
    line.push(b"l-4 -6h8z\"><title>");
    line.push(name);
    line.push(b" arrives at ");
    line.push_number(arrival.at);
    line.push(arrival_end(lost));
    line.push(b"</title></path>\n");
    line
}

fn arrow_head(down: bool) -> &'static [u8]
    ensures is { result.now ≡ arrow_head down }
    ensures short { length result.now ≤ 16 }
{
    if down {
        b"m-3 -6l3 6l3 -6z"
    } else {
        b"m-3 6l3 -6l3 6z"
    }
}

/// A thin line at a count, from one height to another, with a head there: it says who does what to a task.
#[tactic(auto, unfolding(crate::specs::Marks::arrow_line))]
pub fn arrow_line(
    scale: Scale,
    at: u32,
    by: &[u8],
    from: u32,
    does: &[u8],
    task: &[u8],
    to: u32,
) -> LineText
    requires scale { IsScale scale }
    requires by { length by.now ≤ name_limit }
    requires does { length does.now ≤ 11 }
    requires task { length task.now ≤ name_limit }
    requires behind { scale.from ≤ at }
    requires within { at ≤ scale.to }
    ensures { result ≡ arrow_line scale at by.now from does.now task.now to }
{
    let left = scale.place(at);
    let mut line = LineText::new();
    line.push(b"<path class=\"m\" d=\"M");
    push_pixels(&mut line, left);
    line.push(b" ");
    line.push_number(from);
    line.push(b"V");
    line.push_number(to);
    line.push(arrow_head(from < to));
    line.push(b"\"><title>");
    line.push(by);
    line.push(does);
    line.push(task);
    line.push(b" at ");
    line.push_number(at);
    line.push(b"</title></path>\n");
    line
}

/// A rhomb at the tick that an alarm expires at, below the bars of a lane.
#[tactic(auto, unfolding(crate::specs::Marks::expiry_line))]
pub fn expiry_line(scale: Scale, at: u32, alarm: u32, middle: u32) -> LineText
    requires scale { IsScale scale }
    requires low { middle ≤ 2000 }
    requires behind { scale.from ≤ at }
    requires within { at ≤ scale.to }
    ensures { result ≡ expiry_line scale at alarm middle }
{
    let (left, top) = (scale.place(at), middle + 10);
    let mut line = LineText::new();
    line.push(b"<path class=\"a\" d=\"M");
    push_pixels(&mut line, left);
    line.push(b" ");
    line.push_number(top);
    line.push(b"l4 4l-4 4l-4 -4z\"><title>alarm ");
    line.push_number(alarm);
    line.push(b" expires at ");
    line.push_number(at);
    line.push(b"</title></path>\n");
    line
}
