//! Rows that are printed.
use sloth_base::BuildError;
use std::alloc::Global;
use std::fmt::Debug;

/// Rows are told, or a text is refused or memory is wanting.
pub type Told = Result<(), BuildError>;

/// A piece of a row. Bytes are shown as text, an address in eight hexadecimal digits.
#[derive(Clone, Copy)]
pub enum Piece<'a> {
    Text(&'a str),
    Bytes(&'a [u8]),
    Number(i64),
    Address(u32),
    Flag(bool),
}

/// Rows that are not printed yet, and whether some are left out for want of memory.
#[derive(Drop)]
pub struct Rows {
    pub alloc: Global,
    pub text: String,
    wanting: bool,
}

/// Bytes as text, or `?` where they are none.
pub fn shown(bytes: &[u8]) -> &str {
    str::from_utf8(bytes).unwrap_or("?")
}

impl Rows {
    /// No rows.
    pub fn new(alloc: Global) -> Rows {
        Rows {
            alloc,
            text: String::new(alloc),
            wanting: false,
        }
    }

    /// Some rows are left out.
    pub fn leave_out(&mut self) {
        self.wanting = true;
    }

    /// Appends a text.
    pub fn text(&mut self, text: &str) {
        if self.text.push_str(text).is_err() {
            self.leave_out();
        }
    }

    /// Appends what is shown of a value to whoever looks for a fault.
    pub fn debug<T: Debug>(&mut self, value: &T) {
        match format!(in self.alloc; "{value:?}") {
            Ok(text) => self.text(&text),
            Err(_) => self.leave_out(),
        }
    }

    fn put(&mut self, piece: Piece) {
        let made = match piece {
            Piece::Text(text) => return self.text(text),
            Piece::Bytes(bytes) => return self.text(shown(bytes)),
            Piece::Number(number) => format!(in self.alloc; "{number}"),
            Piece::Address(address) => format!(in self.alloc; "{address:08x}"),
            Piece::Flag(flag) => format!(in self.alloc; "{flag}"),
        };
        match made {
            Ok(text) => self.text(&text),
            Err(_) => self.leave_out(),
        }
    }

    /// Appends a text in which a piece stands for each `%` (`form!`).
    pub fn form(&mut self, text: &str, pieces: &[Piece]) {
        for (place, part) in text.split('%').enumerate() {
            self.text(part);
            if let Some(piece) = pieces.get(place) {
                self.put(*piece);
            }
        }
    }

    /// Appends a row of a text and numbers.
    pub fn numbers(&mut self, text: &str, numbers: &[u32]) {
        self.text(text);
        for number in numbers {
            form!(self; " %"; ; *number);
        }
        self.text("\n");
    }

    /// Prints the rows, then where some are left out. What cannot be printed is missing where the output is compared.
    pub fn print(&mut self, rt: &impl Print) {
        if self.wanting {
            self.text("rows are left out\n");
        }
        let _ = rt.print(self.text.as_str());
        self.text.clear();
    }
}
