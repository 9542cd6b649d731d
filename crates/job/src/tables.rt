// The tables of a job that questions 1 to 4 let pass, each as its own part of the file.
ghost use Rattle.std.specs.Prelude.{◌≡◌};
ghost use Rattle.job.specs.Format.{pipe_table, node_table, friction_table, initial_table, schedule_table};
ghost use Rattle.job.specs.Format.{count_table, trip_table};
ghost use Rattle.job.specs.Questions.{pair_questions, first_no};

// Table 1
pub fn pipes(job: &[u8]) -> &[u8]
    requires { first_no pair_questions job.now ≡ 0 }
    ensures { result.now ≡ pipe_table job.now }
{
    super::pairs::table(job, 0)
}

// Table 2
pub fn nodes(job: &[u8]) -> &[u8]
    requires { first_no pair_questions job.now ≡ 0 }
    ensures { result.now ≡ node_table job.now }
{
    super::pairs::table(job, 1)
}

// Table 3
pub fn friction(job: &[u8]) -> &[u8]
    requires { first_no pair_questions job.now ≡ 0 }
    ensures { result.now ≡ friction_table job.now }
{
    super::pairs::table(job, 2)
}

// Table 4
pub fn initial(job: &[u8]) -> &[u8]
    requires { first_no pair_questions job.now ≡ 0 }
    ensures { result.now ≡ initial_table job.now }
{
    super::pairs::table(job, 3)
}

// Table 5
pub fn schedules(job: &[u8]) -> &[u8]
    requires { first_no pair_questions job.now ≡ 0 }
    ensures { result.now ≡ schedule_table job.now }
{
    super::pairs::table(job, 4)
}

// Table 6
pub fn counts(job: &[u8]) -> &[u8]
    requires { first_no pair_questions job.now ≡ 0 }
    ensures { result.now ≡ count_table job.now }
{
    super::pairs::optional_table(job, 5)
}

// Table 7
pub fn trips(job: &[u8]) -> &[u8]
    requires { first_no pair_questions job.now ≡ 0 }
    ensures { result.now ≡ trip_table job.now }
{
    super::pairs::optional_table(job, 6)
}
