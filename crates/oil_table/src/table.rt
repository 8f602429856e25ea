//! The attribute table: which attributes may stand where, and which values they take (OIL 2.5, section 3).
ghost use Rattle.std.specs.Prelude.{◌≡◌, ◌&&◌, bytes_eq};
ghost use Rattle.oil_table.specs.Table.{place_of, attribute_of, is_single, allows_word, allows_number, is_allowed, is_word};
ghost use Rattle.oil_table.specs.Table.{block_place, is_nowhere};

use oil_parse::{OilAttr, OilValue};
use sloth_base::{PRIORITY_LIMIT, TICK_LIMIT};
use text_pieces::same;

/// Where attributes stand: in an object of a kind, or in the block of AUTOSTART = TRUE or of an action. No attribute
/// may stand anywhere else.
#[derive(Clone, Copy)]
pub enum Place {
    Os,
    AppMode,
    Task,
    Activation,
    Resource,
    Event,
    Counter,
    Alarm,
    /// The block of ACTION = ACTIVATETASK.
    Activating,
    /// The block of ACTION = SETEVENT.
    Setting,
    /// The block of AUTOSTART = TRUE of an alarm.
    Wakeup,
    Nowhere,
}

/// A row of the table.
#[derive(Clone, Copy)]
pub enum Attribute {
    Status,
    Hook,
    Flag,
    Value,
    Priority,
    Schedule,
    Activation,
    Autostart,
    Mode,
    Resource,
    Event,
    Property,
    Mask,
    /// A limit of a counter.
    Limit,
    Ticks,
    /// The counter of an alarm.
    Counter,
    Action,
    /// The task of an action.
    ActionTask,
    /// The event of an action.
    ActionEvent,
    /// The ticks to the first expiry of an alarm.
    Time,
    /// The ticks from one expiry to the next.
    Cycle,
}

// The value of the first row with this word, or the other one.
macro_rules! named {
    ($word:expr; $($name:literal => $value:expr),+; $other:expr) => {{
        $(if same($word, $name) {
            return $value;
        })+
        $other
    }};
}

// The row of the first attribute with this name, if there is one.
macro_rules! row {
    ($word:expr; $($name:literal => $row:ident),+) => {
        named!($word; $($name => Some(Attribute::$row)),+; None)
    };
}

/// The place that an object of this kind is; nowhere, where there is no such kind.
pub fn place_of(kind: &[u8]) -> Place
    ensures { result ≡ place_of kind.now }
{
    named!(kind; b"OS" => Place::Os, b"APPMODE" => Place::AppMode, b"TASK" => Place::Task,
        b"RESOURCE" => Place::Resource, b"EVENT" => Place::Event, b"COUNTER" => Place::Counter,
        b"ALARM" => Place::Alarm; Place::Nowhere)
}

/// The row of the table for an attribute of this name at this place.
pub fn attribute_of(place: Place, name: &[u8]) -> Option<Attribute>
    ensures { result ≡ attribute_of place name.now }
{
    match place {
        Place::Os => row!(name; b"STATUS" => Status, b"STARTUPHOOK" => Hook, b"ERRORHOOK" => Hook,
            b"SHUTDOWNHOOK" => Hook, b"PRETASKHOOK" => Hook, b"POSTTASKHOOK" => Hook,
            b"USEGETSERVICEID" => Flag, b"USEPARAMETERACCESS" => Flag, b"USERESSCHEDULER" => Flag),
        Place::AppMode => row!(name; b"VALUE" => Value),
        Place::Task => row!(name; b"PRIORITY" => Priority, b"SCHEDULE" => Schedule,
            b"ACTIVATION" => Activation, b"AUTOSTART" => Autostart, b"RESOURCE" => Resource,
            b"EVENT" => Event),
        Place::Activation => row!(name; b"APPMODE" => Mode),
        Place::Resource => row!(name; b"RESOURCEPROPERTY" => Property),
        Place::Event => row!(name; b"MASK" => Mask),
        Place::Counter => row!(name; b"MAXALLOWEDVALUE" => Limit, b"TICKSPERBASE" => Ticks,
            b"MINCYCLE" => Limit),
        Place::Alarm => row!(name; b"COUNTER" => Counter, b"ACTION" => Action,
            b"AUTOSTART" => Autostart),
        Place::Activating => row!(name; b"TASK" => ActionTask),
        Place::Setting => row!(name; b"TASK" => ActionTask, b"EVENT" => ActionEvent),
        Place::Wakeup => row!(name; b"ALARMTIME" => Time, b"CYCLETIME" => Cycle,
            b"APPMODE" => Mode),
        Place::Nowhere => None,
    }
}

/// Whether the table marks the attribute single.
pub fn is_single(attribute: Attribute) -> bool
    ensures { result ≡ is_single attribute }
{
    match attribute {
        Attribute::Mode | Attribute::Resource | Attribute::Event => false,
        _ => true,
    }
}

fn allows_word(attribute: Attribute, word: &[u8]) -> bool
    ensures { result ≡ allows_word attribute word.now }
{
    match attribute {
        Attribute::Status => same(word, b"STANDARD") || same(word, b"EXTENDED"),
        Attribute::Hook => same(word, b"FALSE"),
        Attribute::Flag | Attribute::Autostart => same(word, b"TRUE") || same(word, b"FALSE"),
        Attribute::Value | Attribute::Mask => same(word, b"AUTO"),
        Attribute::Schedule => same(word, b"NON") || same(word, b"FULL"),
        Attribute::Property => same(word, b"STANDARD"),
        Attribute::Action => same(word, b"ACTIVATETASK") || same(word, b"SETEVENT"),
        Attribute::Mode | Attribute::Resource | Attribute::Event | Attribute::Counter => true,
        Attribute::ActionTask | Attribute::ActionEvent => true,
        _ => false,
    }
}

fn allows_number(attribute: Attribute, number: u32) -> bool
    ensures { result ≡ allows_number attribute number }
{
    match attribute {
        Attribute::Value | Attribute::Cycle => true,
        Attribute::Priority => number <= PRIORITY_LIMIT,
        Attribute::Activation => number == 1,
        Attribute::Mask | Attribute::Ticks | Attribute::Time => 1 <= number,
        Attribute::Limit => 1 <= number && number <= TICK_LIMIT,
        _ => false,
    }
}

/// Whether the table lists this value for the attribute. A reference may be any word.
pub fn allows(attribute: Attribute, value: &OilValue) -> bool
    ensures { result ≡ is_allowed attribute value.now }
{
    match value {
        OilValue::Word(word) => allows_word(attribute, word.bytes()),
        OilValue::Number(number) => allows_number(attribute, *number),
        OilValue::Text(_) => false,
    }
}

/// Whether the value is this word.
pub fn is_word(value: &OilValue, word: &[u8]) -> bool
    ensures { result ≡ is_word value.now word.now }
{
    matches!(value, OilValue::Word(given) if same(given.bytes(), word))
}

/// The place that the block of an attribute of an object is.
pub fn block_place(place: Place, attr: &OilAttr) -> Place
    ensures { result ≡ block_place place attr.now }
{
    match place {
        Place::Task if has(attr, b"AUTOSTART", b"TRUE") => Place::Activation,
        Place::Alarm if has(attr, b"AUTOSTART", b"TRUE") => Place::Wakeup,
        Place::Alarm if has(attr, b"ACTION", b"ACTIVATETASK") => Place::Activating,
        Place::Alarm if has(attr, b"ACTION", b"SETEVENT") => Place::Setting,
        _ => Place::Nowhere,
    }
}

fn has(attr: &OilAttr, name: &[u8], word: &[u8]) -> bool
    ensures { result ≡ (bytes_eq attr.now.name name.now && is_word attr.now.value word.now) }
{
    same(attr.name.bytes(), name) && is_word(&attr.value, word)
}

/// Whether no attribute may stand there.
pub fn is_nowhere(place: Place) -> bool
    ensures { result ≡ is_nowhere place }
{
    matches!(place, Place::Nowhere)
}
