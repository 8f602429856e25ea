//! Where ways through a run end.
ghost use Rattle.std.specs.Prelude.{◌≡◌, ◌≤◌, ◌<◌, ◌-◌, ◌||◌, IfSome, if◌then◌else◌};
ghost use Rattle.debug_ways.specs.Cursor.{cursor_run};
ghost use Rattle.debug_ways.specs.Ways.{Tests, ahead, back, ends_ahead, ends_back, guards_before, least_behind};
ghost use Rattle.debug_ways.specs.Ways.{greatest_below, last_hit};

use crate::{Cursor, Look, Machine};

/// The counts of the first window that a way back searches. Each further one is eight times as long.
const NEAR: u32 = 4096;

/// What ends a way.
pub trait Hits {
    /// The tests.
    ghost tests: { Self → Tests };

    /// Whether a way stops at a count.
    fn stops(&self, look: &Look) -> bool
        ensures { result ≡ (tests self.now).stops look.now };

    /// Whether a way does not cross the access of a count.
    fn guards(&self, look: &Look) -> bool
        ensures { result ≡ (tests self.now).guards look.now };
}

/// Where a way forward ends.
pub fn go_ahead<M: Machine, H: Hits>(cursor: &mut Cursor<M>, hits: &H, from: u32) -> u32
    requires { from ≤ (cursor_run M.run cursor.old).end }
    ensures within { result ≤ (cursor_run M.run cursor.old).end }
    ensures count { result ≡ ahead (cursor_run M.run cursor.old) (H.tests hits.now) from }
    ensures run { cursor_run M.run cursor.new ≡ cursor_run M.run cursor.old }
{
    let look = cursor.look(from);
    if hits.guards(&look) {
        return from;
    }
    least(cursor, hits, from)
}

fn least<M: Machine, H: Hits>(cursor: &mut Cursor<M>, hits: &H, from: u32) -> u32
    requires { from ≤ (cursor_run M.run cursor.old).end }
    ensures within { result ≤ (cursor_run M.run cursor.old).end }
    ensures count { result ≡ least_behind (ends_ahead (cursor_run M.run cursor.old) (H.tests hits.now)) ((cursor_run
        M.run cursor.old).end - from) from }
    ensures run { cursor_run M.run cursor.new ≡ cursor_run M.run cursor.old }
{
    let end = cursor.end();
    let mut count = from;
    while count < end {
        count += 1;
        if ends_ahead(cursor, hits, count) {
            return count;
        }
    }
    count
}

fn ends_ahead<M: Machine, H: Hits>(cursor: &mut Cursor<M>, hits: &H, count: u32) -> bool
    requires { count ≤ (cursor_run M.run cursor.old).end }
    ensures ends { result ≡ ends_ahead (cursor_run M.run cursor.old) (H.tests hits.now) count }
    ensures run { cursor_run M.run cursor.new ≡ cursor_run M.run cursor.old }
{
    let look = cursor.look(count);
    hits.stops(&look) || hits.guards(&look)
}

/// Where a way back ends.
pub fn go_back<M: Machine, H: Hits>(cursor: &mut Cursor<M>, hits: &H, from: u32) -> u32
    requires { from ≤ (cursor_run M.run cursor.old).end }
    ensures within { result ≤ (cursor_run M.run cursor.old).end }
    ensures count { result ≡ back (cursor_run M.run cursor.old) (H.tests hits.now) from }
    ensures run { cursor_run M.run cursor.new ≡ cursor_run M.run cursor.old }
{
    if guarded_before(cursor, hits, from) {
        return from;
    }
    greatest(cursor, hits, from)
}

/// Whether a way does not cross the access of the count before this one.
pub fn guarded_before<M: Machine, H: Hits>(cursor: &mut Cursor<M>, hits: &H, count: u32) -> bool
    requires { count ≤ (cursor_run M.run cursor.old).end }
    ensures before { result ≡ guards_before (cursor_run M.run cursor.old) (H.tests hits.now) count }
    ensures run { cursor_run M.run cursor.new ≡ cursor_run M.run cursor.old }
{
    if count == 0 {
        return false;
    }
    let look = cursor.look(count - 1);
    hits.guards(&look)
}

fn greatest<M: Machine, H: Hits>(cursor: &mut Cursor<M>, hits: &H, below: u32) -> u32
    requires { below ≤ (cursor_run M.run cursor.old).end }
    ensures within { result ≤ below }
    ensures count { result ≡ greatest_below (ends_back (cursor_run M.run cursor.old) (H.tests hits.now)) below }
    ensures run { cursor_run M.run cursor.new ≡ cursor_run M.run cursor.old }
{
    let mut to = below;
    let mut width = NEAR;
    while to > 0 {
        let from = to.saturating_sub(width);
        if let Some(count) = last_hit(cursor, hits, from, to) {
            return count;
        }
        to = from;
        width = width.saturating_mul(8);
    }
    0
}

fn last_hit<M: Machine, H: Hits>(cursor: &mut Cursor<M>, hits: &H, low: u32, to: u32) -> Option<u32>
    requires ordered { low ≤ to }
    requires within { to ≤ (cursor_run M.run cursor.old).end }
    ensures below { IfSome result (λ last. last < to) }
    ensures last { result ≡ last_hit (ends_back (cursor_run M.run cursor.old) (H.tests hits.now)) (to - low) low }
    ensures run { cursor_run M.run cursor.new ≡ cursor_run M.run cursor.old }
{
    let mut last = None;
    let mut guarded = guarded_before(cursor, hits, low);
    for count in low..to {
        let found = count_tests(cursor, hits, count);
        last = later(last, found.0, guarded, count);
        guarded = found.1;
    }
    last
}

fn count_tests<M: Machine, H: Hits>(cursor: &mut Cursor<M>, hits: &H, count: u32) -> (bool, bool)
    requires { count ≤ (cursor_run M.run cursor.old).end }
    ensures stops { result.0 ≡ (H.tests hits.now).stops ((cursor_run M.run cursor.old).look count) }
    ensures guards { result.1 ≡ (H.tests hits.now).guards ((cursor_run M.run cursor.old).look count) }
    ensures run { cursor_run M.run cursor.new ≡ cursor_run M.run cursor.old }
{
    let look = cursor.look(count);
    (hits.stops(&look), hits.guards(&look))
}

fn later(last: Option<u32>, stops: bool, guarded: bool, count: u32) -> Option<u32>
    ensures { result ≡ (if stops || guarded then Some count else last) }
{
    if stops || guarded { Some(count) } else { last }
}
