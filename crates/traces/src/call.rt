// The calls of a trace, each family in an enum, and the numbers that rows have for them.

// A call: those that change a run, then the reads, and last a random schedule of faults.
#[derive(Clone, Copy)]
pub enum Call {
    Start,
    Step,
    Direct(Direct),
    Schedule,
    Write(Write),
    Seal,
    Send,
    Output(Output),
    End,
    Check(Check),
    ReadServer(ServerRead),
    ReadEntry(EntryRead),
    ReadRun(RunRead),
    Chaos,
}

// The direct calls.
#[derive(Clone, Copy)]
pub enum Direct {
    Propose,
    FireTimer,
    ConfirmLeadership,
}

// The writes.
#[derive(Clone, Copy)]
pub enum Write {
    HardState,
    Put,
    Truncate,
}

// The outputs without a message.
#[derive(Clone, Copy)]
pub enum Output {
    SetTimer,
    CancelTimer,
    Apply,
    Confirmed,
    Lost,
}

// The checks on request.
#[derive(Clone, Copy)]
pub enum Check {
    LogMatching,
    Durability,
}

// The reads of a server.
#[derive(Clone, Copy)]
pub enum ServerRead {
    Status,
    HardState,
    Log,
    Applied,
    SentBy,
}

// The reads whose command goes to a buffer.
#[derive(Clone, Copy)]
pub enum EntryRead {
    Log,
    Applied,
}

// The reads of a run.
#[derive(Clone, Copy)]
pub enum RunRead {
    Leader,
    Metrics,
    Reply,
    Confirmation,
    Violation,
    Run,
    Settings,
}

impl TryFrom<u64> for Call {
    type Error = ();

    fn try_from(number: u64) -> Result<Call, ()> {
        Ok(match number {
            1 => Call::Start,
            2 => Call::Step,
            3 => Call::Direct(Direct::Propose),
            4 => Call::Direct(Direct::FireTimer),
            5 => Call::Direct(Direct::ConfirmLeadership),
            6 => Call::Schedule,
            7 => Call::Write(Write::HardState),
            8 => Call::Write(Write::Put),
            9 => Call::Write(Write::Truncate),
            10 => Call::Seal,
            11 => Call::Send,
            12 => Call::Output(Output::SetTimer),
            13 => Call::Output(Output::CancelTimer),
            14 => Call::Output(Output::Apply),
            15 => Call::Output(Output::Confirmed),
            16 => Call::Output(Output::Lost),
            17 => Call::End,
            18 => Call::Check(Check::LogMatching),
            19 => Call::Check(Check::Durability),
            20 => Call::ReadServer(ServerRead::Status),
            21 => Call::ReadServer(ServerRead::HardState),
            22 => Call::ReadServer(ServerRead::Log),
            23 => Call::ReadEntry(EntryRead::Log),
            24 => Call::ReadRun(RunRead::Leader),
            25 => Call::ReadServer(ServerRead::Applied),
            26 => Call::ReadEntry(EntryRead::Applied),
            27 => Call::ReadRun(RunRead::Metrics),
            28 => Call::ReadServer(ServerRead::SentBy),
            29 => Call::ReadRun(RunRead::Reply),
            30 => Call::ReadRun(RunRead::Confirmation),
            31 => Call::ReadRun(RunRead::Violation),
            32 => Call::ReadRun(RunRead::Run),
            33 => Call::Chaos,
            34 => Call::ReadRun(RunRead::Settings),
            _ => return Err(()),
        })
    }
}
