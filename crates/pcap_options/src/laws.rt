//! Laws of the grammar of options and name records. Each contract is the law.

ghost use Rattle.std.specs.Prelude.{◌≡◌, ℕ, List};
ghost use Rattle.pcap_core.specs.Answer.{Order};
ghost use Rattle.pcap_core.specs.Laws.{ExactlyOne};
ghost use Rattle.pcap_core.specs.declared.rules.Rule.{Rule};
ghost use Rattle.pcap_options.specs.Values.{Entry, Kind, Shape, EntrySays};
ghost use Rattle.pcap_options.specs.Options.{Ending, wants_end, may_end_with_body, OptionList, OptionSays, ListSays};
ghost use Rattle.pcap_options.specs.Names.{NameSays, NamesSay};
ghost use Rattle.pcap_options.specs.Record.{AddressSays, RecordSays};
ghost use Rattle.pcap_options.specs.Records.{RecordsSay};

/// Any bytes have exactly one reading as a value of any shape: the option, or one fault. This covers the custom
/// options.
pub fn value_is_one()
    ensures { (order : Order) (shape : Shape) (code : ℕ) (v : List ℕ) → ExactlyOne (EntrySays order shape code v) }
{}

/// Any bytes have exactly one reading as an option or the end-of-options option: that item, or one fault.
pub fn option_is_one()
    ensures { (order : Order) (kind : Kind) (s : List ℕ) → ExactlyOne (OptionSays order kind s) }
{}

/// Any bytes have exactly one reading as a list of options, for each way in which a list may end: the list, or one
/// fault.
pub fn list_is_one()
    ensures { (ending : Ending) (order : Order) (kind : Kind) (s : List ℕ) → ExactlyOne (ListSays ending order kind s) }
{}

/// Any bytes have exactly one reading as a name: the name, or one fault.
pub fn name_is_one()
    ensures { (s : List ℕ) → ExactlyOne (NameSays s) }
{}

/// Any bytes have exactly one reading as names up to their end: the names, or one fault.
pub fn names_are_one()
    ensures { (s : List ℕ) → ExactlyOne (NamesSay s) }
{}

/// Any bytes have exactly one reading as an address of a given width and its names: the address, or one fault.
pub fn address_is_one()
    ensures { (width : ℕ) (too_short : Rule) (s : List ℕ) → ExactlyOne (AddressSays width too_short s) }
{}

/// Any bytes have exactly one reading as a name record: the record, or one fault.
pub fn record_is_one()
    ensures { (order : Order) (s : List ℕ) → ExactlyOne (RecordSays order s) }
{}

/// Any bytes have exactly one reading as name records up to the end record: the records, or one fault.
pub fn records_are_one()
    ensures { (order : Order) (s : List ℕ) → ExactlyOne (RecordsSay order s) }
{}

/// Bytes that are a list of options under `wants_end` are the same list, and no other, under `may_end_with_body`.
pub fn list_is_kept()
    ensures kept { (order : Order) (kind : Kind) (options : List Entry) (s rest : List ℕ) →
        OptionList wants_end order kind options s rest → OptionList may_end_with_body order kind options s rest }
    ensures no_others { (order : Order) (kind : Kind) (options others : List Entry) (s rest more : List ℕ) →
        OptionList wants_end order kind options s rest → OptionList may_end_with_body order kind others s more → (others ≡ options) × (more ≡ rest) }
{}
