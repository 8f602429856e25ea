//! The changes of signals, written as they come. The waves of a run.
//! What waves show of a count: its sample, and what the service words said when the tasks were seen.
ghost use Rattle.std.specs.Prelude.{◌≡◌, ◌≤◌, ◌++◌, ◌+◌, true, false, OnOk, IfOk};
ghost use Rattle.sloth_base.specs.Limits.{task_limit, counter_limit, alarm_limit, count_limit};
ghost use Rattle.wave_text.specs.Changes.{DumpEntry, same_value, change_entries, kernel_changes, changes, scope_changes, moment_entries, with_moment};
ghost use Rattle.wave_text.specs.Text.{digit, byte_digits, word_digits, value_text, signal_end, entry_line, entry_lines};
ghost use Rattle.wave_text.specs.Signals.{most_signals, alarm_count};
ghost use Rattle.wave_text.specs.declared.signals.Scope.TheVariants.{Values, Alarms};
ghost use Rattle.wave_text.specs.Waves.{HasNewEntries, AreWaves};
ghost use Rattle.sloth_base.specs.ImageRange.{InFormat};
ghost use Rattle.sloth_base.specs.Arrivals.{AreArrivals};
ghost use Rattle.sloth_base.specs.Owners.{owners_named};
ghost use Rattle.wave_text.specs.Moments.{no_words, words_behind_look};

use crate::header::header;
use crate::signals::{
    LEVEL, MASKED, Scope, Width, alarm_count, first_code, keeps, level_value, masked_value,
    signal_value, signal_width,
};
use run_samples::{Sample, Sampler, ServiceWords};
use sloth_base::numbers::Owners;
use sloth_base::{ALARM_LIMIT, Arrival, COUNTER_LIMIT, Image, NoMemory, Result, TASK_LIMIT};
use sloth_runner::Halt;
use std::alloc::Global;
use text_pieces::line;
use text_pieces::pieces::Piece::{Number, Word};

fn same_value(one: Option<u32>, other: Option<u32>) -> bool
    ensures { result ≡ same_value one other }
{
    match one {
        Some(one) => match other {
            Some(other) => one == other,
            None => false,
        },
        None => other.is_none(),
    }
}

fn digit(number: u32) -> u8
    ensures { result ≡ digit number }
{
    b'0' + (number % 2) as u8
}

fn push_byte(text: &mut Vec<u8>, n: u32) -> Result<()>
    ensures { OnOk result (text.new.items ≡ text.old.items ++ byte_digits n) }
{
    text.extend_from_slice(&[
        digit(n / 128),
        digit(n / 64),
        digit(n / 32),
        digit(n / 16),
        digit(n / 8),
        digit(n / 4),
        digit(n / 2),
        digit(n),
    ])?;
    Ok(())
}

#[tactic(auto, unfolding(crate::specs::Text::word_digits))]
fn push_word(text: &mut Vec<u8>, n: u32) -> Result<()>
    ensures { OnOk result (text.new.items ≡ text.old.items ++ word_digits n) }
{
    push_byte(text, n / 16_777_216)?;
    push_byte(text, n / 65_536)?;
    push_byte(text, n / 256)?;
    push_byte(text, n)
}

// Appends a value, or that it is unknown.
#[tactic(auto, unfolding(crate::specs::Text::value_text))]
fn push_value(text: &mut Vec<u8>, width: Width, value: Option<u32>) -> Result<()>
    ensures { OnOk result (text.new.items ≡ text.old.items ++ value_text width value) }
{
    let Some(n) = value else {
        return match width {
            Width::One => line!(text; Word(b"x")),
            Width::Two | Width::Eight | Width::ThirtyTwo => line!(text; Word(b"bx ")),
        };
    };
    match width {
        Width::One => text.extend_from_slice(&[digit(n)])?,
        Width::Two => text.extend_from_slice(&[b'b', digit(n / 2), digit(n), b' '])?,
        Width::Eight => {
            text.extend_from_slice(b"b")?;
            push_byte(text, n)?;
            text.extend_from_slice(b" ")?;
        }
        Width::ThirtyTwo => {
            text.extend_from_slice(b"b")?;
            push_word(text, n)?;
            text.extend_from_slice(b" ")?;
        }
    }
    Ok(())
}

#[tactic(auto, unfolding(crate::specs::Text::entry_line, crate::specs::Text::signal_end, crate::specs::Signals::code_text))]
fn push_change(text: &mut Vec<u8>, code: u8, width: Width, value: Option<u32>) -> Result<()>
    ensures { OnOk result (text.new.items ≡ text.old.items ++ entry_line (DumpEntry.change code width value)) }
{
    push_value(text, width, value)?;
    if code < 127 {
        text.extend_from_slice(&[code, b'\n'])?;
    } else {
        text.extend_from_slice(&[b'!', code - 94, b'\n'])?;
    }
    Ok(())
}

/// The text of waves so far, and whether the moment that is written has its line.
#[derive(Drop)]
pub struct Dump {
    pub text: Vec<u8>,
    pub count: u32,
    pub stamped: bool,
}

impl Dump {
    #[tactic(auto, unfolding(crate::specs::Text::entry_line))]
    fn stamp(&mut self) -> Result<()>
        ensures text { OnOk result (self.new.text.items
            ≡ self.old.text.items ++ entry_line (DumpEntry.moment self.old.count)) }
        ensures count { OnOk result (self.new.count ≡ self.old.count) }
        ensures stamped { OnOk result (self.new.stamped ≡ true) }
    {
        line!(&mut self.text; Word(b"#"), Number(self.count), Word(b"\n"))?;
        self.stamped = true;
        Ok(())
    }

    // Appends it unless it stands.
    fn stand(&mut self) -> Result<()>
        ensures text { OnOk result (self.new.text.items
            ≡ self.old.text.items ++ entry_lines (moment_entries self.old.count self.old.stamped)) }
        ensures count { OnOk result (self.new.count ≡ self.old.count) }
        ensures stamped { OnOk result (self.new.stamped ≡ true) }
    {
        if self.stamped {
            return Ok(());
        }
        self.stamp()
    }

    // Appends the line of a signal that has another value than before.
    fn change(
        &mut self,
        code: u8,
        width: Width,
        before: Option<u32>,
        after: Option<u32>,
    ) -> Result<()>
        ensures { OnOk result (HasNewEntries self.old self.new (change_entries code width before after)) }
    {
        if same_value(before, after) {
            return Ok(());
        }
        self.stand()?;
        push_change(&mut self.text, code, width, after)
    }

    fn scope(
        &mut self,
        scope: Scope,
        count: usize,
        before: &Option<Moment>,
        after: &Option<Moment>,
    ) -> Result<()>
        requires small { count ≤ alarm_limit }
        requires few { count ≤ most_signals scope }
        ensures { OnOk result (HasNewEntries self.old self.new (scope_changes scope before.now after.now count)) }
    {
        if keeps(scope, count, before, after) {
            return Ok(());
        }
        for place in 0..count {
            self.change(
                first_code(scope) + place as u8,
                signal_width(scope),
                signal_value(scope, before, place),
                signal_value(scope, after, place),
            )?;
        }
        Ok(())
    }

    fn kernel(
        &mut self,
        owners: &Owners,
        before: &Option<Moment>,
        after: &Option<Moment>,
    ) -> Result<()>
        requires tasks { owners.now.tasks ≤ task_limit }
        requires counters { owners.now.counters ≤ counter_limit }
        ensures { OnOk result (HasNewEntries self.old self.new (kernel_changes owners.now before.now after.now)) }
    {
        self.scope(Scope::State, owners.tasks, before, after)?;
        self.scope(Scope::Runs, owners.tasks, before, after)?;
        self.scope(Scope::Pending, owners.tasks, before, after)?;
        self.scope(Scope::Counters, owners.counters, before, after)?;
        self.change(LEVEL, Width::Eight, level_value(before), level_value(after))?;
        self.change(
            MASKED,
            Width::One,
            masked_value(before),
            masked_value(after),
        )?;
        Ok(())
    }

    fn clock(
        &mut self,
        counters: usize,
        before: &Option<Moment>,
        after: &Option<Moment>,
    ) -> Result<()>
        requires { counters ≤ counter_limit }
        ensures { OnOk result (HasNewEntries self.old self.new
            (scope_changes Values before.now after.now counters
            ++ scope_changes Alarms before.now after.now (alarm_count counters))) }
    {
        self.scope(Scope::Values, counters, before, after)?;
        self.scope(Scope::Alarms, alarm_count(counters), before, after)?;
        Ok(())
    }

    /// Appends the changes from one moment to the next, whose count it is.
    pub fn moment(
        &mut self,
        count: u32,
        owners: &Owners,
        before: &Option<Moment>,
        after: &Option<Moment>,
    ) -> Result<()>
        requires tasks { owners.now.tasks ≤ task_limit }
        requires counters { owners.now.counters ≤ counter_limit }
        ensures { OnOk result
            (self.new.text.items
            ≡ self.old.text.items ++ entry_lines (with_moment count false (changes owners.now before.now after.now))) }
    {
        self.count = count;
        self.stamped = false;
        self.kernel(owners, before, after)?;
        self.clock(owners.counters, before, after)?;
        Ok(())
    }

    /// Appends the line of the end.
    pub fn end(&mut self, count: u32) -> Result<()>
        ensures { OnOk result (self.new.text.items ≡ self.old.text.items ++ entry_line (DumpEntry.moment count)) }
    {
        self.count = count;
        self.stamp()
    }
}

/// The waves of a run, or where and why it stops.
#[derive(Drop)]
pub enum Recorded {
    Text(Vec<u8>),
    Stopped(Halt),
}

/// The waves of the first n instructions, at most `COUNT_LIMIT`, of the run of an image with arrivals.
pub fn waves(
    alloc: Global,
    image: &Image,
    arrivals: &[Arrival],
    n: u32,
) -> Result<Recorded, NoMemory>
    requires format { InFormat image.now }
    requires arrivals { AreArrivals (owners_named image.now) arrivals.now }
    requires few { n ≤ count_limit }
    ensures { IfOk result (AreWaves image.now arrivals.now n) }
{
    let owners = Owners {
        tasks: image.tasks.items().len(),
        counters: image.counters.items().len(),
    };
    let mut dump = Dump {
        text: header(alloc, image)?,
        count: 0,
        stamped: false,
    };
    let mut sampler = Sampler::new(alloc, image, arrivals)?;
    let mut words = no_words();
    let mut old = None;
    for count in 0..n {
        let now = sampler.service_words();
        match sampler.next() {
            Ok(sample) => {
                words = words_behind_look(&sample, count, &words, &now);
                let new = Some(Moment { sample, words });
                dump.moment(count, &owners, &old, &new)?;
                old = new;
            }
            Err(halt) => return Ok(Recorded::Stopped(halt)),
        }
    }
    dump.end(n)?;
    Ok(Recorded::Text(dump.text))
}

/// A count of a run.
#[derive(Clone, Copy)]
pub struct Moment {
    pub sample: Sample,
    /// The service words at the count at which the tasks were seen, 0 where they were not.
    pub words: ServiceWords,
}

/// Words that say 0.
pub fn no_words() -> ServiceWords
    ensures { result ≡ no_words }
{
    ServiceWords {
        events: [0; TASK_LIMIT],
        counters: [0; COUNTER_LIMIT],
        alarms: [0; ALARM_LIMIT],
    }
}

/// The words of a count of which this is the sample: those that it shows, where the tasks are seen there, and else
/// those of the count before.
pub fn words_behind_look(
    sample: &Sample,
    count: u32,
    before: &ServiceWords,
    now: &ServiceWords,
) -> ServiceWords
    ensures { result ≡ words_behind_look sample.now count before.now now.now }
{
    match &sample.seen {
        Some(seen) if seen.count == count => *now,
        Some(_) => *before,
        None => *before,
    }
}
