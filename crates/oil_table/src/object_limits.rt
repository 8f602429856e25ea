//! Objects that come behind as many of their kind as there may be.
ghost use Rattle.std.specs.Prelude.{◌≡◌, ◌&&◌, ◌||◌, ◌==◌, bytes_eq, codes};
ghost use Rattle.sloth_base.specs.Limits.{counter_limit, alarm_limit};

use oil_parse::OilObject;
use sloth_base::{ALARM_LIMIT, COUNTER_LIMIT};
use text_pieces::same;

/// Whether the object is of this kind, and comes behind so many.
pub fn comes_behind(kind: &[u8], limit: usize, count: usize, object: &OilObject) -> bool
    ensures { result ≡ (bytes_eq object.now.kind kind.now && (count == limit)) }
{
    same(object.kind.bytes(), kind) && count == limit
}

/// Whether the object is the 3rd counter or the 33rd alarm, where so many counters and alarms stand before it.
pub fn is_clock_more(counters: usize, alarms: usize, object: &OilObject) -> bool
    ensures { result ≡ ((bytes_eq object.now.kind (codes "COUNTER") && (counters == counter_limit))
        || (bytes_eq object.now.kind (codes "ALARM") && (alarms == alarm_limit))) }
{
    comes_behind(b"COUNTER", COUNTER_LIMIT, counters, object)
        || comes_behind(b"ALARM", ALARM_LIMIT, alarms, object)
}
