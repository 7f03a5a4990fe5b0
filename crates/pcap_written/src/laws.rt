//! Laws of written blocks: reading them returns what was written. Each contract is the law.

ghost use Rattle.std.specs.Io.KnownBytes.{Appends};
ghost use Rattle.std.specs.Prelude.{◌≡◌, ◌++◌, ℕ, List, [], ◌∷◌, Option, Some, Ok};
ghost use Rattle.pcap_core.specs.Answer.{number_in, whole};
ghost use Rattle.pcap_core.specs.Codec.{number_bytes};
ghost use Rattle.pcap_core.specs.declared.common.Endianness.{Endianness};
ghost use Rattle.pcap_options.specs.Options.{may_end_with_body, wants_end, OptionList, OptionText};
ghost use Rattle.pcap_blocks.specs.ParsedBlock.{Body, BodySays};
ghost use Rattle.pcap_options.specs.Values.{Entry, Kind};
ghost use Rattle.pcap_written.specs.Bodies.{body_text, magic_in, order_under, type_of};
ghost use Rattle.pcap_written.specs.Capture.{AreWritten, IsWritten};
ghost use Rattle.pcap_written.specs.Fits.{AreFit, IsFitOption, kept_body};
ghost use Rattle.pcap_written.specs.Mixed.{GoesOut, GoOut, Written, of_bytes};
ghost use Rattle.pcap_written.specs.Raw.{Raw, WritesRaw, raw_text};
ghost use Rattle.pcap_written.specs.Text.{list_text, option_text};
ghost use Rattle.pcap_written.specs.Writing.{IsFitIn, OpensWriter, WritesBlock, opening_place, place_of, stream_of};
ghost use Rattle.pcap_written.specs.declared.place.Place.{Place};
ghost use Rattle.pcap_written.specs.declared.writer.PcapNgWriter.{PcapNgWriter};

/// A written option is read as it was, whatever follows it.
pub fn written_option_is_read()
    ensures { (e : Endianness) (kind : Kind) (o : Entry) (rest : List ℕ) → IsFitOption (number_in e) (number_bytes e) kind o →
        OptionText (number_in e) kind o (option_text (number_bytes e) kind o ++ rest) rest }
{}

/// A written list of options is read as it was, to its end.
pub fn written_options_are_read()
    ensures { (e : Endianness) (kind : Kind) (os : List Entry) → AreFit (number_in e) (number_bytes e) kind os →
        OptionList may_end_with_body (number_in e) kind os (list_text (number_bytes e) kind os) [] }
{}

/// A written list of options ends with its mark if it has an option. So it is also read as it was where a list may not end
/// with its body.
pub fn written_lists_end_with_their_mark()
    ensures { (e : Endianness) (kind : Kind) (os : List Entry) → AreFit (number_in e) (number_bytes e) kind os →
        OptionList wants_end (number_in e) kind os (list_text (number_bytes e) kind os) [] }
{}

/// A written body is read as it was. Its byte order is the given one, which a section's magic number must name. Data that
/// extends to the end of a block is read with its padding.
pub fn written_body_is_read()
    ensures { (e : Endianness) (body : Body) → IsFitIn e body → order_under e (magic_in body) ≡ Some e →
        (rest : List ℕ) × BodySays (number_in e) (type_of body) (body_text (number_bytes e) body) (whole (kept_body body) rest) }
{}

/// If blocks are written, and one more at the place after them, then the bytes are those of all these blocks, in order.
pub fn written_blocks_go_on()
    ensures { (at mid end : Place) (bodies : List Body) (body : Body) (bytes text : List ℕ) → AreWritten at bodies bytes mid → IsWritten mid body text end →
        AreWritten at (bodies ++ body ∷ []) (bytes ++ text) end }
{}

/// A successful call of the writer appends exactly the text of its block, written at the writer's place. The writer's new
/// place is the one after that block.
pub fn good_calls_write_blocks<W>()
    ensures { (contents : W → Option (List ℕ)) (old new : PcapNgWriter W) (body : Body) (done : Unit {0}) → WritesBlock contents old new body (Ok done) →
        (text : List ℕ) × IsWritten (place_of old) body text (place_of new) × Appends (contents (stream_of old)) (contents (stream_of new)) text }
{}

/// A successful call that makes a writer writes exactly its section header, before any other block. The writer's place is
/// the one after it.
pub fn good_openings_write_sections<W>()
    ensures { (contents : W → Option (List ℕ)) (writer : W) (made : PcapNgWriter W) (body : Body) → OpensWriter contents body writer (Ok made) →
        (text : List ℕ) × IsWritten opening_place body text (place_of made) × Appends (contents writer) (contents (stream_of made)) text }
{}

/// A successful call of the writer for a block of bytes appends exactly that block, at the writer's place. The writer's new
/// place is the one after that block.
pub fn good_raw_calls_write_blocks<W>()
    ensures { (contents : W → Option (List ℕ)) (old new : PcapNgWriter W) (raw : Raw) (done : Unit {0}) → WritesRaw contents old new raw (Ok done) →
        GoesOut (place_of old) (of_bytes raw) (raw_text raw) (place_of new) × Appends (contents (stream_of old)) (contents (stream_of new)) (raw_text raw) }
{}

/// If blocks of values and of bytes are written, and one more at the place after them, then the bytes are those of all
/// these blocks, in order.
pub fn mixed_blocks_go_on()
    ensures { (at mid end : Place) (blocks : List Written) (block : Written) (bytes text : List ℕ) → GoOut at blocks bytes mid → GoesOut mid block text end →
        GoOut at (blocks ++ block ∷ []) (bytes ++ text) end }
{}
