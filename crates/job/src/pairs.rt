// The pairs, and the tables that they tell of.
ghost use Rattle.std.specs.Prelude.{◌≡◌, ◌+◌, ◌*◌, ◌<◌, ◌≤◌, length};
ghost use Rattle.job.specs.Format.{pair_count, listing_steps, least_pairs, pairs_end, offset_of, length_of, table};
ghost use Rattle.job.specs.Questions.{pair_questions, first_no};

// Where n pairs end. The pair after them begins there.
pub fn pairs_end(n: usize) -> usize
    requires { n < 65536 }
    ensures { result ≡ pairs_end n }
{
    n * 8 + 6
}

pub fn pair_count(job: &[u8]) -> usize
    requires { 2 ≤ length job.now }
    ensures { (result ≡ pair_count job.now) × (result < 65536) }
{
    fields::u16_at(job, 0)
}

pub fn listing_steps(job: &[u8]) -> usize
    requires { 6 ≤ length job.now }
    ensures { result ≡ listing_steps job.now }
{
    fields::u32_at(job, 2)
}

// Where table k begins, by its pair.
pub fn offset_of(job: &[u8], k: usize) -> usize
    requires { (k < 65536) × (pairs_end k + 8 ≤ length job.now) }
    ensures { (result ≡ offset_of job.now k) × (result < 4294967296) }
{
    fields::u32_at(job, pairs_end(k))
}

// How long table k is, by its pair.
pub fn length_of(job: &[u8], k: usize) -> usize
    requires { (k < 65536) × (pairs_end k + 8 ≤ length job.now) }
    ensures { (result ≡ length_of job.now k) × (result < 4294967296) }
{
    fields::u32_at(job, pairs_end(k) + 4)
}

// The part of the file that pair k tells of.
fn part(job: &[u8], k: usize) -> &[u8]
    requires { (first_no pair_questions job.now ≡ 0) × (k < pair_count job.now) }
    ensures { result.now ≡ table job.now k }
{
    let a = offset_of(job, k);
    let b = a + length_of(job, k);
    &job[a..b]
}

// Table k, counted from 0, of those that every job has. That it has a pair is not asked again at each step.
pub fn table(job: &[u8], k: usize) -> &[u8]
    requires { (first_no pair_questions job.now ≡ 0) × (k < least_pairs) }
    ensures { result.now ≡ table job.now k }
{
    part(job, k)
}

// Table k, counted from 0, which is empty where it has no pair.
pub fn optional_table(job: &[u8], k: usize) -> &[u8]
    requires { first_no pair_questions job.now ≡ 0 }
    ensures { result.now ≡ table job.now k }
{
    if pair_count(job) <= k {
        return &job[0..0];
    }
    part(job, k)
}
