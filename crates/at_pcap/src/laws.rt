//! Laws of captures. The functions do nothing: each contract is a law.
ghost use Rattle.std.specs.Prelude.{◌≡◌, ◌<◌, ◌^◌, ◌++◌, [], All, List, None, Option, ℕ};
ghost use Rattle.at_pcap.specs.Captures.{IsRecord, Record, written_file_header};
ghost use Rattle.at_pcap.specs.Faults.{FailsFileHeader};
ghost use Rattle.at_pcap.specs.Files.{IsFile};
ghost use Rattle.at_pcap.specs.Frames.{Frame};
ghost use Rattle.at_pcap.specs.Readings.{BeginsWith, IsCapture, records_bytes};
ghost use Rattle.at_pcap.specs.declared.fault.CaptureFault.{CaptureFault as Why};
ghost use Rattle.at_pcap.specs.declared.file_header.FileHeader.{FileHeader as Front};

/// Bytes are read in one way: no other file header, records or end. Where a file header is, no fault of one is.
pub fn a_capture_has_one_reading()
    ensures once { (all rest more : List ℕ) (h g : Front) (ps qs : List Record) (e f : Option Why)
        → IsCapture all h ps rest e → IsCapture all g qs more f → (h ≡ g) × (ps ≡ qs) × (rest ≡ more) × (e ≡ f) }
    ensures faultless { (all rest : List ℕ) (h : Front) (ps : List Record) → BeginsWith all h ps rest → (fault : Why)
        → ¬ FailsFileHeader fault all }
{}

/// The same of a file of either form: bytes have no other frames, and no other end or fault.
pub fn a_file_has_one_reading()
    ensures { (all rest more : List ℕ) (frames others : List Frame) (e f : Option Why) → IsFile all frames rest e
        → IsFile all others more f → (frames ≡ others) × (rest ≡ more) × (e ≡ f) }
{}

/// What is written is read as what was written, to its end.
pub fn what_is_written_is_read()
    ensures { (h : Front) (longest : ℕ) (ps : List Record) → h.link_type < 2 ^ 16 → All IsRecord ps
        → IsCapture (written_file_header h longest ++ records_bytes h.order ps) h ps [] None }
{}
