//! What is spelled is read back.

ghost use Rattle.std.specs.Prelude.{ℕ, ◌≡◌, ◌<◌, List, Some};
ghost use Rattle.fb_model.specs.CertificateText.{words};
ghost use Rattle.fb_record.specs.Records.{Entry, IsEntry, IsWord, encoded, entry_in, head_in, head_text, line_of};

/// The line of a turn says that turn, and the first line of a record says whose turns they are.
pub fn records_read_back()
    ensures turns { (e : Entry) → IsEntry e → entry_in (words (line_of e)) ≡ Some e }
    ensures heads { (device app cert : List ℕ) → (boot : ℕ) → IsWord device → boot < 4294967296
        → head_in (words (head_text device boot app cert)) ≡ Some (record { device = device; boot = boot; app = encoded app; cert = encoded cert }) }
{}
