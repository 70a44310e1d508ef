// The reader: job bytes to the job, or refusal 1 to 8.
ghost use Rattle.reader.specs.Reading.{Reads};

use job::record::Job;
use job::refusal::Refusal;

// The job whose file the bytes are, or the first check that they do not pass.
pub fn read(s: &[u8]) -> Result<Job, Refusal>
    ensures { Reads s.now result }
{
    header::check(s)?;
    let j = crate::body::job_of(s);
    job::limits::check(j)?;
    Ok(j)
}
