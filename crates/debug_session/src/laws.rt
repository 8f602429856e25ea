//! In words: how many replies there are; what is written is read back, and what is read stands among the bytes.
ghost use Rattle.std.specs.Prelude.{◌≡◌, ℕ, List, length, false, ◌≤◌, [], ◌∷◌, ◌++◌, Some, true};
ghost use Rattle.debug_ways.specs.Runs.{Run};
ghost use Rattle.debug_session.specs.Messages.{Packet, AllFit, messages, packets_of, AreBytes, EndSo};
ghost use Rattle.debug_session.specs.Reading.{fresh, reading_of, event_after};
ghost use Rattle.debug_session.specs.Requests.{packet_request};
ghost use Rattle.debug_session.specs.Exchanges.{packets_with, replies_to};
ghost use Rattle.debug_session.specs.Replies.{has_reply};
ghost use Rattle.debug_session.specs.Sessions.{Session, answer, answers, HasReplies};
ghost use Rattle.debug_session.specs.Escapes.{escaped, unescaped, is_unmarked};
ghost use Rattle.debug_session.specs.Framing.{all_framed};
ghost use Rattle.debug_session.specs.Hex.{hex_of, bytes_of_hex};
ghost use Rattle.debug_session.specs.declared.session.Event.TheVariants as events;

/// What is written for a packet is one reply behind what acknowledges it, but for `k`, which has none.
#[tactic(auto, using(crate::proofs::OneReply::one_reply))]
pub fn packets_have_one_reply()
    ensures { (run : Run) (names : List (List ℕ)) (session : Session) (content : List ℕ)
        → HasReplies session (has_reply (packet_request (length names) content))
        (answer run names session (Packet content)) }
{}

/// Where packets are not acknowledged, what is written for packets has these packets, as the protocol reads it: the
/// replies, each with its escapes and its sum, one behind the other.
#[tactic(auto, using(crate::proofs::Exchanging::replies_read_back))]
pub fn replies_are_read_back()
    ensures { (run : Run) (names : List (List ℕ)) (session : Session) (contents : List (List ℕ)) → session.sending.acks
        ≡ false
        → AllFit (replies_to run names session contents)
        → messages fresh (answers run names session (packets_with contents))
        ≡ packets_of (replies_to run names session contents) }
{}

/// The messages of packets that stand behind one another are these packets, whatever bytes they are of.
#[tactic(auto, using(crate::proofs::RoundTrip::read_back))]
pub fn packets_are_read_back()
    ensures { (contents : List (List ℕ)) → AllFit contents → messages fresh (all_framed contents)
        ≡ packets_of contents }
{}

/// Data with its escapes stands for itself.
#[tactic(auto, using(crate::proofs::Escaping::escapes_undone))]
pub fn escapes_are_undone()
    ensures { (content : List ℕ) → unescaped (escaped content) ≡ content }
{}

/// Data with its escapes has no byte that begins or ends a packet, and no `*`.
#[tactic(auto, using(crate::proofs::Escaping::escaped_unmarked))]
pub fn escapes_are_unmarked()
    ensures { (content : List ℕ) → is_unmarked (escaped content) ≡ true }
{}

/// The digits of bytes tell these bytes.
#[tactic(auto, using(crate::proofs::Digits::hex_told))]
pub fn digits_are_told()
    ensures { (bytes : List ℕ) → AreBytes bytes → bytes_of_hex (hex_of bytes) ≡ Some bytes }
{}

/// Behind any bytes, a packet that a byte completes stands at the end of these bytes, with its sum.
#[tactic(auto, using(crate::proofs::PacketStanding::packet_stands))]
pub fn packets_stand_among_bytes()
    ensures { (bytes : List ℕ) (byte : ℕ) → event_after (reading_of fresh bytes) byte ≡ events.Packet
        → length (reading_of fresh bytes).content ≤ 16384
        → EndSo (bytes ++ byte ∷ []) (reading_of fresh bytes).content true }
{}

/// A packet that a byte completes as wrong stands there with another sum.
#[tactic(auto, using(crate::proofs::PacketStanding::wrong_stands))]
pub fn wrong_packets_stand_among_bytes()
    ensures { (bytes : List ℕ) (byte : ℕ) → event_after (reading_of fresh bytes) byte ≡ events.Wrong
        → length (reading_of fresh bytes).content ≤ 16384
        → EndSo (bytes ++ byte ∷ []) (reading_of fresh bytes).content false }
{}
