//! That each file has one spelling and each spelling one file, that bytes are a file or have a defect, and that a head
//! and a table are judged from the first bytes alone. Each function has an empty body, and its contract is the law.
ghost use Rattle.std.specs.Prelude.{◌≡◌, ℕ, List, [], ◌++◌, ◌*◌, ◌<◌, ◌^◌, length, take, All, None};
ghost use Rattle.seg_format.specs.declared.layout.Segment.{Segment};
ghost use Rattle.seg_format.specs.Files.{File, Spells};
ghost use Rattle.seg_format.specs.Defects.{head_demands, table_demands, rows_at, first_defect};

/// A file has one spelling.
pub fn one_spelling()
    ensures { (file : File) (bytes others : List ℕ) → Spells bytes file → Spells others file → bytes ≡ others }
{}

/// Bytes spell one file.
pub fn one_file()
    ensures { (bytes : List ℕ) (file other : File) → Spells bytes file → Spells bytes other → file ≡ other }
{}

/// No spelling is the proper beginning of another.
pub fn no_spelling_goes_on()
    ensures { (bytes more : List ℕ) (file other : File) → Spells bytes file → Spells (bytes ++ more) other → more ≡ [] }
{}

/// The bytes of a file have no defect.
pub fn files_have_no_defect()
    ensures { (bytes : List ℕ) (file : File) → Spells bytes file → first_defect bytes ≡ None }
{}

/// Bytes without a defect, fewer than 2^32, spell a file.
pub fn no_defect_is_a_file()
    ensures { (bytes : List ℕ) → All (λ b. b < 256) bytes → length bytes < 2 ^ 32 → first_defect bytes ≡ None → (file : File) × Spells bytes file }
{}

/// What is demanded of a head depends on the first 16 bytes and the size of the file alone.
pub fn head_from_its_bytes()
    ensures { (size : ℕ) (bytes : List ℕ) → head_demands size (take 16 bytes) ≡ head_demands size bytes }
{}

/// What is demanded of a table depends on its bytes and the size of the file alone.
pub fn table_from_its_bytes()
    ensures demands { (size place start : ℕ) (segments : List Segment) (bytes : List ℕ) → table_demands size place start segments (take (28 * length segments) bytes) ≡ table_demands size place start segments bytes }
    ensures rows { (segments : List Segment) (bytes : List ℕ) → rows_at segments (take (28 * length segments) bytes) ≡ rows_at segments bytes }
{}
