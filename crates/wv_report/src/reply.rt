ghost use Rattle.std.specs.Prelude.{◌≡◌};
ghost use Rattle.wv_report.specs.Report.{status_of};

use c_meaning::Verdict;
use wv_base::Text;

/// What the validator answers. A refusal has a code and a detail, which is empty where there is none; a read fault
/// names the file: `program`, `property` or `witness`.
#[derive(Drop)]
pub enum Reply {
    Verdict(Verdict),
    Refused { code: Text, detail: Text },
    ReadFault(Text),
}

/// The exit status: 0 confirmed, 1 not confirmed, 2 undecided, 3 refused, 4 a read fault, 7 bad usage.
pub fn status(reply: &Reply) -> u8
    ensures { result ≡ status_of reply.now }
{
    match reply {
        Reply::Verdict(Verdict::ViolationConfirmed { .. }) => 0,
        Reply::Verdict(Verdict::CorrectnessConfirmed { .. }) => 0,
        Reply::Verdict(Verdict::ViolationNot { .. }) => 1,
        Reply::Verdict(Verdict::CorrectnessNot { .. }) => 1,
        Reply::Verdict(Verdict::Undecided(_)) => 2,
        Reply::Refused { code, .. } if code.as_str() == "usage" => 7,
        Reply::Refused { .. } => 3,
        Reply::ReadFault(_) => 4,
    }
}
