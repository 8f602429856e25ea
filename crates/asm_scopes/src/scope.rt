//! What a name may stand for where it is used.
ghost use Rattle.std.specs.Prelude.{◌≡◌};
ghost use Rattle.asm_scopes.specs.Scopes.{kind_of, is_scheduler, is_named, is_lacking};
ghost use Rattle.asm_scopes.specs.Scopes.{any_unknown, has_unknown};
ghost use Rattle.asm_scopes.specs.Statements.{written_name};

use crate::written;
use asm_lines::{Mnemonic, Operand, SourceLine};
use sloth_base::ObjectKind;
use text_pieces::{Names, same};

/// What a name is the name of. A name in front of a declaration is used nowhere.
#[derive(Clone, Copy)]
pub enum Kind {
    Declared,
    Symbol,
    Label,
    Function,
    Task,
    Resource,
    Event,
    Alarm,
}

/// The names that a source may use, each kind in the order of its numbers.
pub struct Scope<'t> {
    pub tasks: Names<'t>,
    pub resources: Names<'t>,
    pub events: Names<'t>,
    pub alarms: Names<'t>,
    pub has_scheduler: bool,
    pub symbols: Names<'t>,
    pub functions: Names<'t>,
    /// The functions that are no task's body.
    pub called: Names<'t>,
}

// Written out: what is derived is proved anew wherever a value is let go.
impl Drop for Scope<'_> {
    fn drop(self) {
        let Scope {
            tasks: _,
            resources: _,
            events: _,
            alarms: _,
            has_scheduler: _,
            symbols: _,
            functions: _,
            called: _,
        } = self;
    }
}

/// What the operand at this place of a statement names.
pub fn kind_of(mnemonic: Mnemonic, place: usize) -> Kind
    ensures { result ≡ kind_of mnemonic place }
{
    match mnemonic {
        Mnemonic::Label if place > 0 => Kind::Resource,
        Mnemonic::Load(_) | Mnemonic::Store(_) => Kind::Symbol,
        Mnemonic::Branch(_) | Mnemonic::Jump => Kind::Label,
        Mnemonic::Invoke => Kind::Function,
        Mnemonic::Serve(service) => match (service.has_mask(), service.object_kind()) {
            (true, ObjectKind::Nothing) => Kind::Event,
            (true, _) if place > 0 => Kind::Event,
            (_, ObjectKind::Nothing | ObjectKind::Task) => Kind::Task,
            (_, ObjectKind::Resource) => Kind::Resource,
            (_, ObjectKind::Alarm) => Kind::Alarm,
        },
        _ => Kind::Declared,
    }
}

impl<'t> Scope<'t> {
    /// Whether the name is that of the resource RES_SCHEDULER, and it exists.
    pub fn is_scheduler(&self, name: &[u8]) -> bool
        ensures { result ≡ is_scheduler self.now name.now }
    {
        self.has_scheduler && same(name, b"RES_SCHEDULER")
    }

    fn exists(&self, labels: &Names, kind: Kind, name: &[u8]) -> bool
        ensures { result ≡ is_named self.now labels.now kind name.now }
    {
        match kind {
            Kind::Declared => true,
            Kind::Symbol => self.symbols.has(name),
            Kind::Label => labels.has(name),
            Kind::Function => self.called.has(name),
            Kind::Task => self.tasks.has(name),
            Kind::Resource => self.is_scheduler(name) || self.resources.has(name),
            Kind::Event => self.events.has(name),
            Kind::Alarm => self.alarms.has(name),
        }
    }

    /// Whether the operand writes a name that no object of this kind has.
    pub fn is_lacking(&self, labels: &Names, kind: Kind, operand: &Operand) -> bool
        ensures { result ≡ is_lacking self.now labels.now kind (written_name operand.now) }
    {
        match written(operand) {
            Some(name) => !self.exists(labels, kind, name),
            None => false,
        }
    }

    fn any_unknown(&self, labels: &Names, mnemonic: Mnemonic, operands: &[Operand]) -> bool
        ensures { result ≡ any_unknown self.now labels.now mnemonic 0 operands.now }
    {
        for (place, operand) in operands.iter().enumerate() {
            if self.is_lacking(labels, kind_of(mnemonic, place), operand) {
                return true;
            }
        }
        false
    }

    /// Whether the line uses a name that no object of the wanted kind has.
    pub fn has_unknown(&self, labels: &Names, line: &SourceLine) -> bool
        ensures { result ≡ has_unknown self.now labels.now line.now }
    {
        match line {
            SourceLine::Statement { mnemonic, operands } => {
                self.any_unknown(labels, *mnemonic, operands.items())
            },
            _ => false,
        }
    }
}
