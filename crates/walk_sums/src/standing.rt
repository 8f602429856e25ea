//! Where walks stand: stacks of functions in progress, the outermost first.
ghost use Rattle.std.specs.Prelude.{◌≡◌, true, Decides};
ghost use Rattle.walk_sums.specs.Positions.{position_of};

/// An item of a function, by their numbers.
#[derive(Clone, Copy)]
pub struct Point {
    pub func: usize,
    pub item: usize,
}

/// Where a function in progress stands, and whether those around it raise the task.
#[derive(Clone, Copy)]
pub struct Standing {
    pub point: Point,
    pub raised: bool,
}

/// Whether two points are one.
pub fn is_same(one: Point, other: Point) -> bool
    ensures { Decides result (one ≡ other) }
{
    one.func == other.func && one.item == other.item
}

/// Whether one stack is the position of the other.
pub fn is_standing(stack: &[Standing], other: &[Standing]) -> bool
    ensures { result ≡ true → position_of stack.now ≡ position_of other.now }
{
    if stack.len() != other.len() {
        return false;
    }
    for (number, at) in stack.iter().enumerate() {
        if !is_same(at.point, other[number].point) {
            return false;
        }
    }
    true
}
