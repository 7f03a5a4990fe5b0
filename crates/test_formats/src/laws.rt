//! Laws of the formats: each contract states one.

ghost use Rattle.pcap_items.specs.Format.{IsLawful};
ghost use Rattle.test_formats.specs.Samples.{sample_format};

/// Samples are a format. For each size, all bytes have one result; more bytes don't change it; an item is its own text; and a request is
/// that of the head, or the last one.
pub fn samples_are_lawful()
    ensures { IsLawful sample_format }
{}
