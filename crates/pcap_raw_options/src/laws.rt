//! Laws of raw options. Each contract is the law. `Kind` says how values are read, and raw options have an empty kind.

ghost use Rattle.std.specs.Prelude.{◌≡◌, ℕ, List, None, Some, ◌⊎◌};
ghost use Rattle.pcap_core.specs.Answer.{Order};
ghost use Rattle.pcap_core.specs.Faults.{Fault, Invalid};
ghost use Rattle.pcap_core.specs.Laws.{ExactlyOne};
ghost use Rattle.pcap_core.specs.declared.rules.Rule.TheVariants.{OptionTooShort, OptionCut};
ghost use Rattle.pcap_options.specs.Values.{Kind, Entry};
ghost use Rattle.pcap_options.specs.Options.{Ending, OptionList, ListFault};
ghost use Rattle.pcap_raw_options.specs.UpTo.{UpTo, ReadUpTo, no_kind};

/// Any bytes have exactly one list of options up to the first fault, and one fault or none.
pub fn options_before_the_fault_are_one()
    ensures { (ending : Ending) (order : Order) (kind : Kind) (s : List ℕ) → ExactlyOne (λ (x : UpTo). ReadUpTo ending order kind x s) }
{}

/// A list that no fault stops is the list of strict reading, and a fault that stops it is the one that strict reading
/// reports.
pub fn up_to_is_strict()
    ensures whole { (ending : Ending) (order : Order) (kind : Kind) (s left : List ℕ) (options : List Entry)
        → ReadUpTo ending order kind (record { options = options; flaw = None; left = left }) s → OptionList ending order kind options s left }
    ensures fault { (ending : Ending) (order : Order) (kind : Kind) (s left : List ℕ) (options : List Entry) (fault : Fault)
        → ReadUpTo ending order kind (record { options = options; flaw = Some fault; left = left }) s → ListFault ending order kind s fault }
{}

/// Raw options break only the rules V17 and V18, after which the next option can't be found.
pub fn raw_options_break_two_rules()
    ensures { (ending : Ending) (order : Order) (s : List ℕ) (fault : Fault)
        → ListFault ending order no_kind s fault → (fault ≡ Invalid OptionTooShort) ⊎ (fault ≡ Invalid OptionCut) }
{}
