//! Laws of programs and their runs. The contract of each call states what is proved of it.

ghost use Rattle.std.specs.Prelude.{◌≡◌, ℕ, List};
ghost use Rattle.pcap_filter.specs.declared.program.Step.{Step};
ghost use Rattle.pcap_filter.specs.Effects.{start};
ghost use Rattle.pcap_filter.specs.Programs.{IsProgram};
ghost use Rattle.pcap_filter.specs.Results.{result_of};
ghost use Rattle.pcap_filter.specs.Runs.{Runs};

/// A program that keeps all rules ends with its result, for each packet and each original length.
pub fn programs_end()
    ensures { (steps : List Step) (packet : List ℕ) (original : ℕ) → IsProgram steps → Runs packet original steps start (result_of steps packet original) }
{}

/// A program has only one result for each packet and each original length.
pub fn results_are_unique()
    ensures { (steps : List Step) (packet : List ℕ) (original value other : ℕ) → Runs packet original steps start value →
        Runs packet original steps start other → value ≡ other }
{}
