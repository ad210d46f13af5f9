//! That files without a fault give sound rows. What the crate holds is lemmas about the definitions of `feed_faults`, in
//! `proofs/`, which crates above cite; its one function carries the law.
#![tactic(auto)]

ghost use Rattle.std.specs.Prelude.{◌≡◌, is_none, true};
ghost use Rattle.feed_files.specs.declared.names.FileName.{FileName};
ghost use Rattle.feed_files.specs.HeldFiles.{HeldFile};
ghost use Rattle.feed_rows.specs.SoundFeed.{IsSoundFeed};
ghost use Rattle.feed_faults.specs.FirstFault.{first_fault};
ghost use Rattle.feed_faults.specs.AcceptedFeed.{feed_of};

use feed_files::FeedFault;

/// Whether files are accepted, by their first fault, if they have one. The rows of accepted files are sound: ids, names and
/// keys stand once, references name rows, values are within their limits, and no time falls.
pub fn is_accepted(fault: Option<FeedFault>) -> bool
    ensures value { result ≡ is_none fault }
    ensures sound { (files : FileName → HeldFile) → fault ≡ first_fault files → result ≡ true → IsSoundFeed (feed_of files) }
{
    fault.is_none()
}
