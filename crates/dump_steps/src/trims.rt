//! How far the kept events are taken off.

ghost use Rattle.std.specs.Prelude.{◌≡◌};
ghost use Rattle.dump_steps.specs.Open.{number_asked, trim_end};

use crate::OpenDumps;

/// The event up to which events are taken off where this number is asked for, a negative one being 0:
/// never past the newest one or the begin of an open dump. It takes no memory.
pub fn trim_end(upto: i64, newest: u64, dumps: &OpenDumps) -> u64
    ensures { result ≡ trim_end upto newest dumps.now.dumps }
{
    number_asked(upto).min(dumps.least_begin(newest))
}

// The number that was asked for, a negative one being 0.
fn number_asked(upto: i64) -> u64
    ensures { result ≡ number_asked upto }
{
    if upto < 0 {
        return 0;
    }
    upto.unsigned_abs()
}
