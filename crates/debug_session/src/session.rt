//! A session: its messages, one by one, and what is written for them. The packets among bytes.
ghost use Rattle.std.specs.Prelude.{◌≡◌, ◌≤◌, ◌++◌, OnOk, length, IfOk};
ghost use Rattle.sloth_base.specs.Limits.{task_limit};
ghost use Rattle.debug_ways.specs.Cursor.{cursor_run};
ghost use Rattle.debug_session.specs.Sessions.{first_session, standing_behind, points_behind, reply_to, reply_packet, behind_request};
ghost use Rattle.debug_session.specs.Serving.{behind_event, event_answer};
ghost use Rattle.debug_session.specs.Reading.{fresh, opened, event_after, reading_after};

use crate::commands::packet_request;
use crate::hex::{Link, digit_value};
use crate::replies::{Request, has_reply, push_text};
use debug_ways::points::{set_point, take_point};
use debug_ways::standing::{plain_step, plain_told, selected};
use debug_ways::stepping::{continued, moved, stepped};
use debug_ways::{Cause, Cursor, Machine, Point, Standing};
use sloth_base::{Name, Result};
use std::alloc::Global;
use std::marker::Model;

/// A session, but for the run and the names of its tasks.
#[derive(Drop)]
pub struct Session {
    standing: Standing,
    points: Vec<Point>,
    link: Link,
}

impl Model for Session {
    ghost use Rattle.debug_session.specs.Sessions.{Session as AnySession};

    ghost Value = { AnySession };

    ghost view = { λ session. record {
      standing = session.standing;
      points = session.points.items;
      sending = session.link;
    } };
}

fn standing_behind<M: Machine>(
    cursor: &mut Cursor<M>,
    points: &[Point],
    standing: &Standing,
    request: &Request,
) -> Standing
    requires { standing.now.count ≤ (cursor_run M.run cursor.old).end }
    ensures behind { result ≡ standing_behind (cursor_run M.run cursor.old) points.now standing.now request.now }
    ensures within { result.count ≤ (cursor_run M.run cursor.old).end }
    ensures run { cursor_run M.run cursor.new ≡ cursor_run M.run cursor.old }
{
    let mut next = *standing;
    match request {
        Request::LastStop => selected(standing, &cursor.look(standing.count)),
        Request::Continue(backwards) => continued(cursor, points, *backwards, standing),
        Request::Step(step) => stepped(cursor, points, step, standing),
        Request::PlainStep(backwards) => {
            stepped(cursor, points, &plain_step(*backwards, standing), standing)
        }
        Request::Goto(count) => moved(cursor, *count, standing),
        Request::SelectShown(thread) => {
            next.general = *thread;
            next
        }
        Request::SelectStepped(thread) => {
            next.step = *thread;
            next
        }
        Request::Detach | Request::Kill => {
            next.over = true;
            next
        }
        _ => next,
    }
}

fn points_behind(points: &mut Vec<Point>, request: &Request) -> Result<()>
    ensures { OnOk result (points.new.items ≡ points_behind points.old.items request.now) }
{
    match request {
        Request::SetPoint(point) => set_point(points, point),
        Request::TakePoint(point) => {
            take_point(points, point);
            Ok(())
        }
        _ => Ok(()),
    }
}

impl Session {
    /// A session that has begun.
    pub fn new(alloc: Global) -> Session
        ensures { result ≡ first_session }
    {
        let standing = Standing {
            count: 0,
            general: 0,
            step: 0,
            stopped: 1,
            told: plain_told(Cause::Step, 0),
            interrupted: false,
            met: false,
            over: false,
        };
        Session {
            standing,
            points: Vec::new(alloc),
            link: Link::new(alloc),
        }
    }

    /// Whether it is over.
    pub fn is_over(&self) -> bool
        ensures { result ≡ self.now.standing.over }
    {
        self.standing.over
    }

    fn perform<M: Machine>(
        &mut self,
        alloc: Global,
        out: &mut Vec<u8>,
        cursor: &mut Cursor<M>,
        names: &[Name],
        request: &Request,
    ) -> Result<()>
        requires there { self.old.standing.count ≤ (cursor_run M.run cursor.old).end }
        requires few { length names.now ≤ task_limit }
        ensures session { OnOk result (self.new
            ≡ behind_request (cursor_run M.run cursor.old) names.now self.old request.now) }
        ensures text { OnOk result (out.new.items
            ≡ out.old.items ++ reply_packet (reply_to (cursor_run M.run cursor.old) names.now self.old request.now)) }
        ensures within { OnOk result (self.new.standing.count ≤ (cursor_run M.run cursor.old).end) }
        ensures run { cursor_run M.run cursor.new ≡ cursor_run M.run cursor.old }
    {
        self.standing = standing_behind(cursor, self.points.as_slice(), &self.standing, request);
        points_behind(&mut self.points, request)?;
        self.link.follow(request);
        let mut text = Vec::new(alloc);
        let points = self.points.as_slice();
        let standing = &self.standing;
        push_text(alloc, &mut text, cursor, names, points, standing, request)?;
        if has_reply(request) {
            self.link.send(alloc, out, text.as_slice())
        } else {
            Ok(())
        }
    }

    /// Puts what is written for what a byte completes.
    pub fn answer<M: Machine>(
        &mut self,
        alloc: Global,
        out: &mut Vec<u8>,
        cursor: &mut Cursor<M>,
        names: &[Name],
        event: Event,
        content: &[u8],
    ) -> Result<()>
        requires there { self.old.standing.count ≤ (cursor_run M.run cursor.old).end }
        requires few { length names.now ≤ task_limit }
        ensures session { OnOk result (self.new
            ≡ behind_event (cursor_run M.run cursor.old) names.now self.old event content.now) }
        ensures text { OnOk result (out.new.items
            ≡ out.old.items ++ event_answer (cursor_run M.run cursor.old) names.now self.old event content.now) }
        ensures within { OnOk result (self.new.standing.count ≤ (cursor_run M.run cursor.old).end) }
        ensures run { cursor_run M.run cursor.new ≡ cursor_run M.run cursor.old }
    {
        match event {
            Event::Nothing => Ok(()),
            Event::Interrupt => {
                self.standing.interrupted = true;
                Ok(())
            }
            Event::Again => self.link.repeat(out),
            Event::Wrong => self.link.refuse(alloc, out),
            Event::Packet => {
                let request = packet_request(alloc, names.len() as u32, content)?;
                self.link.acknowledge(out)?;
                self.perform(alloc, out, cursor, names, &request)
            }
        }
    }
}

/// The greatest number of bytes of data in a packet.
pub const LONGEST: usize = 16_384;

/// Where reading stands: outside packets, in the data, behind their `#`, or behind the first digit of the sum.
#[derive(Clone, Copy)]
pub enum Place {
    Outside,
    Inside,
    Behind,
    Half(u8),
}

/// What a byte completes: nothing, an interrupt, a demand for the last reply, a packet whose sum is wrong, or a packet.
#[derive(Clone, Copy)]
pub enum Event {
    Nothing,
    Interrupt,
    Again,
    Wrong,
    Packet,
}

/// A reader of packets. It takes no memory once it is made.
#[derive(Drop)]
pub struct PacketReader {
    place: Place,
    content: Vec<u8>,
    sum: u8,
}

impl Model for PacketReader {
    ghost use Rattle.std.specs.Prelude.{◌≤◌, length, vec_capacity};
    ghost use Rattle.debug_session.specs.Reading.{Reading};

    ghost Value = { Reading };

    ghost view = { λ reader. record { place = reader.place; content = reader.content.items; sum = reader.sum } };

    ghost invariant = { λ reader. (length reader.content.items ≤ 16385) × (16385 ≤ vec_capacity reader.content) };
}

impl PacketReader {
    /// A reader that has read nothing.
    pub fn new(alloc: Global) -> Result<PacketReader>
        ensures { IfOk result (λ reader. reader ≡ fresh) }
    {
        Ok(PacketReader {
            place: Place::Outside,
            content: Vec::with_capacity(alloc, LONGEST + 1)?,
            sum: 0,
        })
    }

    /// What stands in the packet that was read last; of what is too long the first 16,385 bytes.
    pub fn content(&self) -> &[u8]
        ensures { result.now ≡ self.now.content }
    {
        self.content.as_slice()
    }

    /// Takes a byte, and says what it completes.
    pub fn take(&mut self, byte: u8) -> Event
        ensures event { result ≡ event_after self.old byte }
        ensures reading { self.new ≡ reading_after self.old byte }
    {
        match self.place {
            Place::Outside => match byte {
                b'$' => {
                    self.begin();
                    Event::Nothing
                }
                3 => Event::Interrupt,
                b'-' => Event::Again,
                _ => Event::Nothing,
            },
            Place::Inside => {
                match byte {
                    b'$' => self.begin(),
                    b'#' => self.place = Place::Behind,
                    _ => {
                        if self.content.len() <= LONGEST {
                            self.content.push_reserved(byte);
                        }
                        self.sum = self.sum.wrapping_add(byte);
                    }
                }
                Event::Nothing
            }
            Place::Behind => {
                self.place = Place::Half(byte);
                Event::Nothing
            }
            Place::Half(first) => {
                self.place = Place::Outside;
                let told = u32::from(digit_value(first)) * 16 + u32::from(digit_value(byte));
                if told == u32::from(self.sum) {
                    Event::Packet
                } else {
                    Event::Wrong
                }
            }
        }
    }

    fn begin(&mut self)
        ensures { self.new ≡ opened }
    {
        self.place = Place::Inside;
        self.content.clear();
        self.sum = 0;
    }
}
