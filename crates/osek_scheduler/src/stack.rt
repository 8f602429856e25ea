//! The functions in progress of a task.
ghost use Rattle.std.specs.Prelude.{◌≡◌, ◌<◌, ◌≤◌, ◌++◌, [], ◌∷◌, length, slice_get, IfOk, IfNone, OnSome};
ghost use Rattle.std.specs.Prelude.{option_to_list, replicate, set};
ghost use Rattle.std.specs.Option.{option_copied};
ghost use Rattle.sloth_base.specs.Limits.{body_limit, frame_limit};
ghost use Rattle.osek_scheduler.specs.Services.{moved_frames};
ghost use Rattle.osek_scheduler.specs.Changes.{frames_at_item, with_word, outer_frames};
ghost use Rattle.osek_scheduler.specs.Frames.{HasWord, CanMove};

use sloth_base::{BODY_LIMIT, FRAME_LIMIT, Result};
use std::alloc::Global;
use std::marker::Model;

/// The functions in progress, with room for `BODY_LIMIT`. Contracts see the innermost first.
#[derive(Drop)]
pub struct Stack {
    frames: Vec<FrameRoom>,
}

impl Model for Stack {
    ghost use Rattle.std.specs.Prelude.{List, reverse, vec_len, vec_capacity, ◌≤◌};
    ghost use Rattle.sloth_base.specs.Limits.{body_limit};
    ghost use Rattle.osek_scheduler.specs.State.{Frame};

    ghost Value = { List Frame };

    ghost view = { λ s. reverse s.frames.items };

    ghost invariant = { λ s. (vec_len s.frames ≤ body_limit) × (body_limit ≤ vec_capacity s.frames) };
}

impl Stack {
    /// No function in progress.
    pub fn new(alloc: Global) -> Result<Stack>
        ensures { IfOk result (λ s. s ≡ []) }
    {
        let frames = Vec::with_capacity(alloc, BODY_LIMIT)?;
        Ok(Stack { frames })
    }

    /// How many functions are in progress.
    pub fn depth(&self) -> usize
        ensures { result ≡ length self.now }
    {
        self.frames.len()
    }

    /// The innermost function.
    pub fn innermost(&self) -> Option<&FrameRoom>
        ensures { option_copied result ≡ slice_get self.now 0 }
    {
        self.frames.last()
    }

    /// A function is entered.
    pub fn enter(&mut self, frame: FrameRoom)
        requires { length self.old < body_limit }
        ensures { self.new ≡ frame ∷ self.old }
    {
        self.frames.push_reserved(frame);
    }

    /// Takes the innermost function out.
    pub fn take(&mut self) -> Option<FrameRoom>
        ensures taken { self.old ≡ option_to_list result ++ self.new }
        ensures room { OnSome result (length self.new < body_limit) }
        ensures none { IfNone result (self.old ≡ []) }
    {
        self.frames.pop()
    }

    /// Leaves all functions.
    pub fn clear(&mut self)
        ensures { self.new ≡ [] }
    {
        self.frames.clear();
    }

    /// The innermost function goes on behind its item.
    pub fn advance(&mut self)
        requires { CanMove self.old }
        ensures { self.new ≡ moved_frames self.old }
    {
        if let Some(mut frame) = self.take() {
            frame.set_item(frame.item() + 1);
            self.enter(frame);
        }
    }

    /// The innermost function goes to an item.
    pub fn jump(&mut self, item: u32)
        ensures { self.new ≡ frames_at_item item self.old }
    {
        if let Some(mut frame) = self.take() {
            frame.set_item(item);
            self.enter(frame);
        }
    }

    /// Changes a word of the innermost frame.
    pub fn store(&mut self, word: u32, value: u32)
        requires { HasWord word self.old }
        ensures { self.new ≡ with_word word value self.old }
    {
        if let Some(mut frame) = self.take() {
            frame.store(word, value);
            self.enter(frame);
        }
    }

    /// The innermost function returns to its caller, which goes on behind its call.
    pub fn leave(&mut self)
        requires { CanMove (outer_frames self.old) }
        ensures { self.new ≡ moved_frames (outer_frames self.old) }
    {
        if self.take().is_some() {
            self.advance();
        }
    }
}

/// A function that was entered, with room for `FRAME_LIMIT` words.
#[derive(Drop)]
pub struct FrameRoom {
    func: u32,
    item: u32,
    count: usize,
    words: [u32; FRAME_LIMIT],
}

impl Model for FrameRoom {
    ghost use Rattle.std.specs.Prelude.{take, ◌≤◌};
    ghost use Rattle.sloth_base.specs.Limits.{frame_limit};
    ghost use Rattle.osek_scheduler.specs.State.{Frame};

    ghost Value = { Frame };

    ghost view = { λ f. record { func = f.func; item = f.item; words = take f.count f.words } };

    ghost invariant = { λ f. f.count ≤ frame_limit };
}

impl FrameRoom {
    /// A function as it is entered, with so many words, at most `FRAME_LIMIT`.
    pub fn entry(func: u32, words: u32) -> FrameRoom
        requires { words ≤ frame_limit }
        ensures { result ≡ record { func = func; item = 0; words = replicate words 0 } }
    {
        FrameRoom {
            func,
            item: 0,
            count: words as usize,
            words: [0; FRAME_LIMIT],
        }
    }

    /// The number of the function.
    pub fn func(&self) -> u32
        ensures { result ≡ self.now.func }
    {
        self.func
    }

    /// The number of the next item.
    pub fn item(&self) -> u32
        ensures { result ≡ self.now.item }
    {
        self.item
    }

    /// A word of the frame.
    pub fn word(&self, word: u32) -> Option<u32>
        ensures { result ≡ slice_get self.now.words word }
    {
        self.words[..self.count].get(word as usize).copied()
    }

    /// Goes to an item.
    pub fn set_item(&mut self, item: u32)
        ensures { self.new ≡ record self.old { item = item } }
    {
        self.item = item;
    }

    /// Changes a word of the frame.
    pub fn store(&mut self, word: u32, value: u32)
        requires { word < length self.old.words }
        ensures { self.new ≡ record self.old { words = set self.old.words word value } }
    {
        self.words[word as usize] = value;
    }
}
