//! Laws of requests, pages and tables. The functions do nothing: each contract is a law.
ghost use Rattle.std.specs.Prelude.{◌≡◌, ℕ, ◌^◌, ◌<◌, ◌≤◌, ◌++◌, true, false, List, [], length, None};
ghost use Rattle.at_ddp.specs.Datagram.{AreBytes};
ghost use Rattle.at_zip.specs.Fault.{IsFirstFault};
ghost use Rattle.at_zip.specs.Names.{spelled};
ghost use Rattle.at_zip.specs.Page.{Page, IsLawful, Spells, IsPageFrom, page_of, page_user, page_data};
ghost use Rattle.at_zip.specs.Reading.{BeginsTable, EndsWithLast, InTurn, NoneIsLast, names_of, place_after};
ghost use Rattle.at_zip.specs.Request.{RequestSpells, request_user};
ghost use Rattle.at_zip.specs.declared.request.TableChoice.{TableChoice};
ghost use Rattle.at_zip.specs.Tables.{Tables, AreTables, with_table};
ghost use Rattle.at_zip.specs.Zones.{IsName, IsTable, is_name, table_fault};
ghost use Rattle.at_zip.specs.declared.fault.ZipFault.{ZipFault};

/// What is written is read: the canonical bytes spell the request or the page that they were written for. The page of a
/// table is lawful.
pub fn what_is_written_is_read()
    ensures request { (which : TableChoice) (start : ℕ) → 1 ≤ start → start < 2 ^ 16
        → RequestSpells (request_user which start) which start }
    ensures page { (p : Page) (rest : List ℕ) → IsLawful p → Spells (page_user p) (page_data p ++ rest) p }
    ensures lawful { (table : List (List ℕ)) (start : ℕ) → IsTable table → IsLawful (page_of table start) }
{}

/// No bytes spell two requests or two pages, and no page has a fault.
pub fn one_page_a_spelling()
    ensures request { (user : List ℕ) (w v : TableChoice) (m n : ℕ) → RequestSpells user w m → RequestSpells user v n
        → (w ≡ v) × (m ≡ n) }
    ensures page { (user bytes : List ℕ) (p q : Page) → Spells user bytes p → Spells user bytes q → p ≡ q }
    ensures faultless { (user bytes : List ℕ) (p : Page) → Spells user bytes p → (fault : ZipFault)
        → ¬ IsFirstFault fault user bytes }
{}

/// The page of a table fits one ATP packet: four user bytes, and at most 578 bytes of data.
pub fn a_page_fits_one_packet()
    ensures user { (table : List (List ℕ)) (start : ℕ) → AreBytes (page_user (page_of table start)) }
    ensures bytes { (table : List (List ℕ)) (start : ℕ) → IsTable table → AreBytes (page_data (page_of table start)) }
    ensures fits { (table : List (List ℕ)) (start : ℕ) → length (page_data (page_of table start)) ≤ 578 }
{}

/// The page from a place on is the longest run of names that fits 578 bytes, and no other page is.
pub fn a_page_is_the_longest_run()
    ensures longest { (table : List (List ℕ)) (start : ℕ) → IsPageFrom table start (page_of table start) }
    ensures only { (table : List (List ℕ)) (start : ℕ) (p : Page) → IsPageFrom table start p → p ≡ page_of table start }
{}

/// A table that fits one page is read whole.
pub fn a_small_table_is_one_page()
    ensures { (table : List (List ℕ)) → length (spelled table) ≤ 578
        → page_of table 1 ≡ record { last = true; names = table } }
{}

/// A reading asks for each page from the place after the names that it has. If these begin a table, they still do with
/// the names of the next page. They are the table if that is its last page, and else there is a name more.
pub fn a_page_goes_on_with_its_table()
    ensures begins { (table read : List (List ℕ)) → BeginsTable table read
        → BeginsTable table (read ++ (page_of table (place_after read)).names) }
    ensures whole { (table read : List (List ℕ)) → BeginsTable table read
        → (page_of table (place_after read)).last ≡ true → read ++ (page_of table (place_after read)).names ≡ table }
    ensures more { (table read : List (List ℕ)) → IsTable table → (page_of table (place_after read)).last ≡ false
        → 0 < length (page_of table (place_after read)).names }
{}

/// Pages of one table that are read one after another give that table, if the last of them is its last page. Before
/// that page there are no more pages than the table has names.
pub fn pages_in_turn_give_their_table()
    ensures whole { (table : List (List ℕ)) (pages : List Page) → InTurn table [] pages → EndsWithLast pages
        → names_of pages ≡ table }
    ensures ends { (table : List (List ℕ)) (pages : List Page) → IsTable table → InTurn table [] pages
        → NoneIsLast pages → length pages ≤ length table }
{}

/// Both are tables still, once a table was put in the place of one of them.
pub fn tables_stay_tables()
    ensures { (which : TableChoice) (names : List (List ℕ)) (tables : Tables) → IsTable names → AreTables tables
        → AreTables (with_table which names tables) }
{}

/// A string that passes the test is the name of a zone, and names without a fault are a table.
pub fn names_without_a_fault_are_a_table()
    ensures name { (name : List ℕ) → is_name name ≡ true → IsName name }
    ensures table { (names : List (List ℕ)) → table_fault names ≡ None → IsTable names }
{}
