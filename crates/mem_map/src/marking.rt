//! The mark of an item, and the marks of blocks.
ghost use Rattle.std.specs.Prelude.{◌≡◌, ◌<◌, ◌++◌, IfOk};
ghost use Rattle.std.specs.List.Sorted.{IsPermutation, IsStrictlyIncreasing};
ghost use Rattle.sloth_base.specs.Limits.{body_limit};
ghost use Rattle.rv32_expand.specs.InPlace.{mark_of};
ghost use Rattle.mem_map.specs.Sections.{marks_of, addresses, HaveOwnAddresses};

use rv32_instr::Block;
use sloth_base::{Mark, MarkKind, Op};
use std::alloc::{AllocError, Global};

/// The mark of an item at an address.
pub fn mark(op: Op, address: u32, func: u32, index: u32) -> Mark
    requires { func < body_limit }
    ensures { result ≡ mark_of op address func index }
{
    let (kind, a) = match op {
        Op::Serve(call) => (MarkKind::Jump, call.service.code()),
        _ => (
            MarkKind::Item,
            match op {
                Op::Alu { rd, .. }
                | Op::AluImm { rd, .. }
                | Op::Lui { rd, .. }
                | Op::Li { rd, .. } => rd.0,
                Op::FrameLoad { rd, .. } | Op::Load { rd, .. } | Op::LoadAt { rd, .. } => rd.0,
                Op::FrameStore { rs, .. } | Op::Store { rs, .. } | Op::StoreAt { rs, .. } => rs.0,
                Op::Branch { .. }
                | Op::Jump { .. }
                | Op::Invoke { .. }
                | Op::Return
                | Op::Serve(_) => 0,
            },
        ),
    };
    Mark {
        address,
        kind,
        a,
        b: func as u16,
        c: index,
    }
}

fn all_marks(alloc: Global, blocks: &[Block]) -> Result<Vec<Mark>, AllocError>
    ensures { IfOk result (λ marks. marks.items ≡ marks_of blocks.now) }
{
    let mut marks = Vec::new(alloc);
    for block in blocks {
        marks.extend_from_slice(block.marks.items())?;
    }
    Ok(marks)
}

/// The marks of both lists of blocks, in the order of their addresses.
pub fn marks(alloc: Global, blocks: &[Block], items: &[Block]) -> Result<Vec<Mark>, AllocError>
    requires { HaveOwnAddresses (marks_of (blocks.now ++ items.now)) }
    ensures same { IfOk result (λ marks. IsPermutation (marks_of (blocks.now ++ items.now)) marks.items) }
    ensures ascending { IfOk result (λ marks. IsStrictlyIncreasing (addresses marks.items)) }
{
    let mut marks = all_marks(alloc, blocks)?;
    let mut own = all_marks(alloc, items)?;
    marks.append(&mut own)?;
    marks.sort_by_key(|mark| mark.address)?;
    Ok(marks)
}
