//! Bytes on their way out.
ghost use Rattle.std.specs.Prelude.{◌≡◌, ◌+◌, ◌-◌, ◌^◌, OnOk, OnErr, min};
ghost use Rattle.std.specs.Io.KnownBytes.{Appends};
ghost use Rattle.texts.specs.Pages.{BeginsWith};

use crate::fault::WriteFault;
use crate::metered::Metered;
use std::io::Write;

/// Writes all bytes, or those before a failed write.
pub fn send<W: Write>(text: &[u8], to: &mut Metered<W>) -> Result<(), WriteFault>
    ensures all { OnOk result (Appends (W.contents to.old.inner) (W.contents to.new.inner) text.now) }
    ensures beginning { OnErr result (BeginsWith (W.contents to.old.inner) (W.contents to.new.inner) text.now) }
    ensures ok { OnOk result (to.new.failures ≡ to.old.failures) }
    ensures err { OnErr result (to.new.failures ≡ min (to.old.failures + 1) (2 ^ 64 - 1)) }
    ensures why { OnErr result (result ≡ Err WriteFault.Write) }
{
    let mut sent = 0;
    while sent < text.len() {
        match to.write(&text[sent..]) {
            Ok(0) | Err(_) => return Err(WriteFault::Write),
            Ok(n) => sent += n,
        }
    }
    Ok(())
}
