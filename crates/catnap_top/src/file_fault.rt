//! Why a file of bytes is refused, and the line of each fault.

ghost use Rattle.std.specs.Prelude.{◌≡◌};
ghost use Rattle.cn_base.specs.Causes.{HasCause};
ghost use Rattle.cn_base.specs.Writing.{Writes};
ghost use Rattle.catnap_top.specs.FileFaults.{image_kind_name, image_line, object_kind_name, object_line};

use crate::line::put_refusal;
use cn_base::{Sink, WriteFail};
use cn_object::Kind;
use cn_resume::ImageKind;

/// Why an object file is refused: the lowest rule that it breaks, and the first place that breaks it.
#[derive(Clone, Copy, Debug, PartialEq, Eq)]
pub struct BadObject {
    pub kind: Kind,
    pub place: u32,
}

/// Why a saved image is refused: the first condition that fails, and the number that tells where.
#[derive(Clone, Copy, Debug, PartialEq, Eq)]
pub struct BadImage {
    pub kind: ImageKind,
    pub at: u64,
}

fn object_kind_name(kind: Kind) -> &'static str
    ensures { result.now ≡ object_kind_name kind }
{
    match kind {
        Kind::Form => "Form",
        Kind::Operand => "Operand",
        Kind::Region => "Region",
        Kind::Stack => "Stack",
        Kind::Loop => "Loop",
        Kind::Long => "Long",
    }
}

fn image_kind_name(kind: ImageKind) -> &'static str
    ensures { result.now ≡ image_kind_name kind }
{
    match kind {
        ImageKind::Head => "Head",
        ImageKind::Size => "Size",
        ImageKind::Tick => "Tick",
        ImageKind::Stored => "Stored",
        ImageKind::Slot => "Slot",
        ImageKind::Steps => "Steps",
        ImageKind::Place => "Place",
        ImageKind::Record => "Record",
        ImageKind::Done => "Done",
        ImageKind::Schedule => "Schedule",
        ImageKind::State => "State",
    }
}

/// Writes the line of an object file's fault.
pub fn put_object_fault<K: Sink>(sink: &mut K, kind: Kind, place: u32) -> Result<(), WriteFail>
    ensures text { Writes (K.written sink.old) (K.written sink.new) (object_line kind place) result }
    ensures cause { HasCause (K.faults sink.old) (K.faults sink.new) result }
{
    put_refusal(
        sink,
        b"fault object ",
        object_kind_name(kind).as_bytes(),
        u64::from(place),
    )
}

/// Writes the line of a saved image's fault.
pub fn put_image_fault<K: Sink>(sink: &mut K, kind: ImageKind, at: u64) -> Result<(), WriteFail>
    ensures text { Writes (K.written sink.old) (K.written sink.new) (image_line kind at) result }
    ensures cause { HasCause (K.faults sink.old) (K.faults sink.new) result }
{
    put_refusal(sink, b"fault image ", image_kind_name(kind).as_bytes(), at)
}
