ghost use Rattle.std.specs.Prelude.{◌≡◌, bytes_eq};
ghost use Rattle.cv_base.specs.EndText.{kind_text};
ghost use Rattle.cv_histories.specs.Texts.{held_text, mode_text};
ghost use Rattle.cv_journal.specs.EntryReading.{held_in, kind_in, mode_in};

use cv_base::{CrashCause, FailureKind, Mode};

const KINDS: [FailureKind; 10] = [
    FailureKind::IllegalTransfer,
    FailureKind::HeapGuard,
    FailureKind::ShadowStack,
    FailureKind::Crash(CrashCause::IllegalInstruction),
    FailureKind::Crash(CrashCause::Break),
    FailureKind::Crash(CrashCause::Deep),
    FailureKind::Crash(CrashCause::Misaligned),
    FailureKind::Crash(CrashCause::Unreadable),
    FailureKind::Crash(CrashCause::Code),
    FailureKind::Crash(CrashCause::Unwritable),
];

/// The kind of failure that has this name.
#[tactic(auto, unfolding(crate::specs::EntryReading::kind_in))]
pub fn kind(text: &[u8]) -> Option<FailureKind>
    ensures { result ≡ kind_in text.now }
{
    KINDS.iter().copied().find(|kind| text == kind_name(*kind))
}

/// The name of a kind of failure.
fn kind_name(kind: FailureKind) -> &'static [u8]
    ensures { result.now ≡ kind_text kind }
{
    match kind {
        FailureKind::IllegalTransfer => b"illegal-transfer",
        FailureKind::HeapGuard => b"heap-guard",
        FailureKind::ShadowStack => b"shadow-stack",
        FailureKind::Crash(CrashCause::IllegalInstruction) => b"crash-illegal",
        FailureKind::Crash(CrashCause::Break) => b"crash-break",
        FailureKind::Crash(CrashCause::Deep) => b"crash-deep",
        FailureKind::Crash(CrashCause::Misaligned) => b"crash-misaligned",
        FailureKind::Crash(CrashCause::Unreadable) => b"crash-unreadable",
        FailureKind::Crash(CrashCause::Code) => b"crash-code",
        FailureKind::Crash(CrashCause::Unwritable) => b"crash-unwritable",
    }
}

/// The mode that has this name.
#[tactic(auto, unfolding(crate::specs::EntryReading::mode_in))]
pub fn mode(text: &[u8]) -> Option<Mode>
    ensures { result ≡ mode_in text.now }
{
    if text == b"learn".as_slice() {
        return Some(Mode::Learn);
    }
    if text == b"live".as_slice() {
        return Some(Mode::Live);
    }
    None
}

/// Whether a candidate held, by the word for it.
#[tactic(auto, unfolding(crate::specs::EntryReading::held_in))]
pub fn held(text: &[u8]) -> Option<bool>
    ensures { result ≡ held_in text.now }
{
    if text == b"held".as_slice() {
        return Some(true);
    }
    if text == b"failed".as_slice() {
        return Some(false);
    }
    None
}
