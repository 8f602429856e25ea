//! Replies to requests: what a run shows is looked at here, and told by what is looked at. What a packet asks.
//! What is looked at of a run for a reply: registers and memory.
ghost use Rattle.std.specs.Prelude.{◌≡◌, ◌≤◌, ◌++◌, OnOk, length, ◌+◌};
ghost use Rattle.sloth_base.specs.Limits.{task_limit};
ghost use Rattle.debug_ways.specs.Cursor.{cursor_run};
ghost use Rattle.debug_session.specs.Replies.{reply_text, has_reply, fixed_text, plain_text, registers_text, memory_byte, bytes_from, memory_text};
ghost use Rattle.debug_session.specs.Description.{description};

use crate::hex::push_hex;
use crate::threads::{
    push, push_number, push_register, push_states, push_stop, push_thread_list, push_threads,
    push_window, push_words,
};
use debug_ways::points::is_among;
use debug_ways::standing::{count_view, last_seen, lesser, running_thread, shown_thread};
use debug_ways::stepping::push_events;
use debug_ways::{Cursor, Machine, Point, Standing, Step};
use sloth_base::{Name, Result};
use std::alloc::Global;
use text_pieces::line;
use text_pieces::pieces::Piece::{Number, Word};
use trace_text::stopped_line;

#[tactic(auto, unfolding(crate::specs::Replies::features_text))]
fn fixed_text(points: &[Point], request: &Request) -> &'static [u8]
    ensures { result.now ≡ fixed_text points.now request.now }
{
    match request {
        Request::Fault(fault) => match *fault {
            1 => b"E01",
            2 => b"E02",
            _ => b"E04",
        },
        Request::Supported =>
            b"PacketSize=4000;QStartNoAckMode+;swbreak+;hwbreak+;vContSupported+;ReverseStep+;ReverseContinue+;qXfer:features:read+;qXfer:threads:read+",
        Request::NoAnnex => b"E00",
        Request::ThreadListEnd => b"l",
        Request::Attached => b"1",
        Request::SetPoint(point) => if is_among(point, points) {
            b"OK"
        } else {
            b"E05"
        },
        Request::Actions => b"vCont;c;C;s;S;r",
        Request::Confirmed
        | Request::NoAcks
        | Request::SelectShown(_)
        | Request::SelectStepped(_)
        | Request::TakePoint(_)
        | Request::Detach => b"OK",
        _ => b"",
    }
}

// Puts the text that a reply tells in digits.
#[tactic(auto, unfolding(crate::specs::Replies::help_text, crate::specs::Replies::no_goto_text))]
fn push_plain<M: Machine>(
    alloc: Global,
    out: &mut Vec<u8>,
    cursor: &mut Cursor<M>,
    names: &[Name],
    standing: &Standing,
    request: &Request,
) -> Result<()>
    requires there { standing.now.count ≤ (cursor_run M.run cursor.old).end }
    requires few { length names.now ≤ task_limit }
    ensures text { OnOk result (out.new.items
        ≡ out.old.items ++ plain_text (cursor_run M.run cursor.old) names.now standing.now request.now) }
    ensures run { cursor_run M.run cursor.new ≡ cursor_run M.run cursor.old }
{
    match request {
        Request::ThreadInfo(thread) => {
            let view = count_view(cursor, standing.count);
            push_words(out, &view, names, *thread)
        }
        Request::Count | Request::Goto(_) => {
            let stop = cursor.stop();
            let pc = cursor.look(standing.count).pc;
            line!(out; Word(b"count "), Number(standing.count))?;
            if !standing.met {
                return push(out, b"\n");
            }
            match stop {
                Some(stop) => line!(out; Word(b", "), Word(stopped_line(pc, stop).bytes())),
                None => push(out, b"\n"),
            }
        }
        Request::NoGoto => push(out, b"goto K: K is a count from 0 to 1000000\n"),
        Request::States => {
            let seen = last_seen(cursor, standing.count);
            push_states(out, names, &seen)
        }
        Request::Events => push_events(alloc, out, cursor, standing.count),
        Request::Help => push(
            out,
            b"count      the number of instructions executed\ngoto K     to count K, from 0 to 1000000; then: maintenance flush register-cache\nstates     what each task is, as `at` prints it\nevents     the events around, as `run` prints them\n",
        ),
        _ => Ok(()),
    }
}

/// Whether a request has a reply.
pub fn has_reply(request: &Request) -> bool
    ensures { result ≡ has_reply request.now }
{
    match request {
        Request::Kill => false,
        _ => true,
    }
}

/// Puts the text of the reply to a request, where the session stands so behind it.
pub fn push_text<M: Machine>(
    alloc: Global,
    out: &mut Vec<u8>,
    cursor: &mut Cursor<M>,
    names: &[Name],
    points: &[Point],
    standing: &Standing,
    request: &Request,
) -> Result<()>
    requires there { standing.now.count ≤ (cursor_run M.run cursor.old).end }
    requires few { length names.now ≤ task_limit }
    ensures text { OnOk result (out.new.items ≡ out.old.items
        ++ reply_text (cursor_run M.run cursor.old) names.now points.now standing.now request.now) }
    ensures run { cursor_run M.run cursor.new ≡ cursor_run M.run cursor.old }
{
    match request {
        Request::LastStop | Request::Continue(_) | Request::Step(_) | Request::PlainStep(_) => {
            push_stop(out, &cursor.stop(), standing)
        }
        Request::Description(window) => push_window(out, description(), window),
        Request::Threads(window) => {
            let view = count_view(cursor, standing.count);
            let mut text = Vec::new(alloc);
            push_threads(&mut text, &view, names)?;
            push_window(out, text.as_slice(), window)
        }
        Request::ThreadList => push_thread_list(out, names.len() as u32),
        Request::CurrentThread => {
            let look = cursor.look(standing.count);
            push(out, b"QC")?;
            push_number(out, running_thread(&look))
        }
        Request::Registers => push_registers(out, cursor, standing),
        Request::Register(number) => {
            let thread = shown_thread(cursor, standing);
            push_register(out, cursor.register(standing.count, thread, *number))
        }
        Request::Memory(window) => push_memory(alloc, out, cursor, standing, window),
        Request::ThreadInfo(_)
        | Request::Count
        | Request::Goto(_)
        | Request::NoGoto
        | Request::States
        | Request::Events
        | Request::Help => {
            let mut text = Vec::new(alloc);
            push_plain(alloc, &mut text, cursor, names, standing, request)?;
            push_hex(out, text.as_slice())
        }
        _ => push(out, fixed_text(points, request)),
    }
}

/// The description of the registers: x0 to x31 and pc, and five CSRs, by the numbers 0 to 37, each of 32 bits.
#[tactic(auto, unfolding(crate::specs::Description::description))]
pub fn description() -> &'static [u8]
    ensures { result.now ≡ description }
{
    b"<?xml version=\"1.0\"?>\n<!DOCTYPE target SYSTEM \"gdb-target.dtd\">\n<target version=\"1.0\">\n<architecture>riscv:rv32</architecture>\n<osabi>none</osabi>\n<feature name=\"org.gnu.gdb.riscv.cpu\">\n<reg name=\"zero\" bitsize=\"32\" regnum=\"0\" type=\"int\"/>\n<reg name=\"ra\" bitsize=\"32\" regnum=\"1\" type=\"code_ptr\"/>\n<reg name=\"sp\" bitsize=\"32\" regnum=\"2\" type=\"data_ptr\"/>\n<reg name=\"gp\" bitsize=\"32\" regnum=\"3\" type=\"int\"/>\n<reg name=\"tp\" bitsize=\"32\" regnum=\"4\" type=\"int\"/>\n<reg name=\"t0\" bitsize=\"32\" regnum=\"5\" type=\"int\"/>\n<reg name=\"t1\" bitsize=\"32\" regnum=\"6\" type=\"int\"/>\n<reg name=\"t2\" bitsize=\"32\" regnum=\"7\" type=\"int\"/>\n<reg name=\"s0\" bitsize=\"32\" regnum=\"8\" type=\"int\"/>\n<reg name=\"s1\" bitsize=\"32\" regnum=\"9\" type=\"int\"/>\n<reg name=\"a0\" bitsize=\"32\" regnum=\"10\" type=\"int\"/>\n<reg name=\"a1\" bitsize=\"32\" regnum=\"11\" type=\"int\"/>\n<reg name=\"a2\" bitsize=\"32\" regnum=\"12\" type=\"int\"/>\n<reg name=\"a3\" bitsize=\"32\" regnum=\"13\" type=\"int\"/>\n<reg name=\"a4\" bitsize=\"32\" regnum=\"14\" type=\"int\"/>\n<reg name=\"a5\" bitsize=\"32\" regnum=\"15\" type=\"int\"/>\n<reg name=\"a6\" bitsize=\"32\" regnum=\"16\" type=\"int\"/>\n<reg name=\"a7\" bitsize=\"32\" regnum=\"17\" type=\"int\"/>\n<reg name=\"s2\" bitsize=\"32\" regnum=\"18\" type=\"int\"/>\n<reg name=\"s3\" bitsize=\"32\" regnum=\"19\" type=\"int\"/>\n<reg name=\"s4\" bitsize=\"32\" regnum=\"20\" type=\"int\"/>\n<reg name=\"s5\" bitsize=\"32\" regnum=\"21\" type=\"int\"/>\n<reg name=\"s6\" bitsize=\"32\" regnum=\"22\" type=\"int\"/>\n<reg name=\"s7\" bitsize=\"32\" regnum=\"23\" type=\"int\"/>\n<reg name=\"s8\" bitsize=\"32\" regnum=\"24\" type=\"int\"/>\n<reg name=\"s9\" bitsize=\"32\" regnum=\"25\" type=\"int\"/>\n<reg name=\"s10\" bitsize=\"32\" regnum=\"26\" type=\"int\"/>\n<reg name=\"s11\" bitsize=\"32\" regnum=\"27\" type=\"int\"/>\n<reg name=\"t3\" bitsize=\"32\" regnum=\"28\" type=\"int\"/>\n<reg name=\"t4\" bitsize=\"32\" regnum=\"29\" type=\"int\"/>\n<reg name=\"t5\" bitsize=\"32\" regnum=\"30\" type=\"int\"/>\n<reg name=\"t6\" bitsize=\"32\" regnum=\"31\" type=\"int\"/>\n<reg name=\"pc\" bitsize=\"32\" regnum=\"32\" type=\"code_ptr\"/>\n</feature>\n<feature name=\"org.gnu.gdb.riscv.csr\">\n<reg name=\"mstatus\" bitsize=\"32\" regnum=\"33\" type=\"int\" group=\"csr\"/>\n<reg name=\"mscratch\" bitsize=\"32\" regnum=\"34\" type=\"int\" group=\"csr\"/>\n<reg name=\"mepc\" bitsize=\"32\" regnum=\"35\" type=\"int\" group=\"csr\"/>\n<reg name=\"ilevel\" bitsize=\"32\" regnum=\"36\" type=\"int\" group=\"csr\"/>\n<reg name=\"plevel\" bitsize=\"32\" regnum=\"37\" type=\"int\" group=\"csr\"/>\n</feature>\n</target>\n"
}

/// A part of a text: from a place on, so many bytes at most.
#[derive(Clone, Copy)]
pub struct Window {
    pub from: u32,
    pub length: u32,
}

/// What a packet asks. A form that is at fault, and one that is not known, ask too.
#[derive(Clone, Copy)]
pub enum Request {
    /// Nothing that is known.
    Nothing,
    /// A fault: 1 of the form, 2 no such thread, 4 nothing is written.
    Fault(u8),
    /// What is confirmed, and changes nothing.
    Confirmed,
    Supported,
    NoAcks,
    LastStop,
    Description(Window),
    NoAnnex,
    Threads(Window),
    ThreadList,
    ThreadListEnd,
    ThreadInfo(u32),
    CurrentThread,
    Attached,
    SelectShown(u32),
    SelectStepped(u32),
    Registers,
    Register(u32),
    Memory(Window),
    SetPoint(Point),
    TakePoint(Point),
    Actions,
    Continue(bool),
    Step(Step),
    PlainStep(bool),
    Count,
    Goto(u32),
    NoGoto,
    States,
    Events,
    Help,
    Detach,
    Kill,
}

/// The most bytes of memory that are shown at once.
const BYTE_LIMIT: u32 = 8_184;

/// Puts all registers of the thread that is shown.
pub fn push_registers<M: Machine>(
    out: &mut Vec<u8>,
    cursor: &mut Cursor<M>,
    standing: &Standing,
) -> Result<()>
    requires { standing.now.count ≤ (cursor_run M.run cursor.old).end }
    ensures text { OnOk result (out.new.items
        ≡ out.old.items ++ registers_text (cursor_run M.run cursor.old) standing.now) }
    ensures run { cursor_run M.run cursor.new ≡ cursor_run M.run cursor.old }
{
    let thread = shown_thread(cursor, standing);
    for number in 0..38u32 {
        push_register(out, cursor.register(standing.count, thread, number))?;
    }
    Ok(())
}

fn memory_byte<M: Machine>(
    cursor: &mut Cursor<M>,
    count: u32,
    address: u32,
    place: u32,
) -> Option<u8>
    requires { count ≤ (cursor_run M.run cursor.old).end }
    ensures byte { result ≡ memory_byte ((cursor_run M.run cursor.old).byte count) (address + place) }
    ensures run { cursor_run M.run cursor.new ≡ cursor_run M.run cursor.old }
{
    match address.checked_add(place) {
        Some(here) => cursor.byte(count, here),
        None => None,
    }
}

fn push_bytes<M: Machine>(
    out: &mut Vec<u8>,
    cursor: &mut Cursor<M>,
    count: u32,
    length: u32,
    address: u32,
) -> Result<()>
    requires { count ≤ (cursor_run M.run cursor.old).end }
    ensures bytes { OnOk result (out.new.items
        ≡ out.old.items ++ bytes_from ((cursor_run M.run cursor.old).byte count) length address) }
    ensures run { cursor_run M.run cursor.new ≡ cursor_run M.run cursor.old }
{
    for place in 0..length {
        match memory_byte(cursor, count, address, place) {
            Some(byte) => push(out, &[byte])?,
            None => return Ok(()),
        }
    }
    Ok(())
}

/// Puts the digits of a part of memory, or a fault where bytes are wanted and none is there.
pub fn push_memory<M: Machine>(
    alloc: Global,
    out: &mut Vec<u8>,
    cursor: &mut Cursor<M>,
    standing: &Standing,
    window: &Window,
) -> Result<()>
    requires { standing.now.count ≤ (cursor_run M.run cursor.old).end }
    ensures text { OnOk result (out.new.items
        ≡ out.old.items ++ memory_text (cursor_run M.run cursor.old) standing.now window.now) }
    ensures run { cursor_run M.run cursor.new ≡ cursor_run M.run cursor.old }
{
    let mut bytes = Vec::new(alloc);
    let length = lesser(BYTE_LIMIT, window.length);
    push_bytes(&mut bytes, cursor, standing.count, length, window.from)?;
    if bytes.is_empty() && window.length != 0 {
        push(out, b"E03")
    } else {
        push_hex(out, bytes.as_slice())
    }
}
