// A test, or a part of one on a guest or on a long ledger: commands, and after `>` what is expected.
use script::{Script, is};
use std::io;
use std::io::BufRead;

pub(crate) trait Part {
    // Carries a command out: whether its name is known, and what it expects holds.
    fn command<R: BufRead>(&mut self, script: &mut Script<R>, name: &[u8]) -> io::Result<bool>;
}

// Whether all names up to a last one are known, and all that is expected holds. Of more than a thousand commands
// the first thousand are carried out: a script may have no end.
pub(crate) fn holds<R: BufRead, P: Part>(
    script: &mut Script<R>,
    part: &mut P,
    last: &[u8],
) -> io::Result<bool> {
    let mut ok = true;
    let mut name = script.name()?;
    for _ in 0..1000 {
        if is(name.as_slice(), last) {
            break;
        }
        if !part.command(script, name.as_slice())? {
            ok = false;
        }
        name = script.name()?;
    }
    Ok(ok)
}
