// What the definitions of a manifest say, in other words.

ghost use Rattle.std.specs.Prelude.{◌≡◌};
ghost use Rattle.insn.specs.declared.decoding.TheConstants.{MAX_INSTALLED_SLOTS};
ghost use Rattle.loader.specs.declared.installed.TheConstants.{MAX_SPARE, MOST_LONG, MOST_SPARE};
ghost use Rattle.loader.specs.declared.loading.TheConstants.{MAX_PROGRAMS};
ghost use Rattle.loader.specs.declared.paths.TheConstants.{PATH_BYTES};
ghost use Rattle.loader.specs.Spelling.{EachLineIsItsSpelling};
ghost use Rattle.loader.specs.Offers.{LoadedIsOffered, RefusedIsFirstBad};
ghost use Rattle.loader.specs.NamedFiles.{NamesAreFiles, NoOtherFile};
ghost use Rattle.loader.specs.Wider.{WiderLimitsKeepWhatIsGood};

/// The limits that the definitions cite, as numbers.
pub fn limits()
    ensures programs_of_a_catalogue { MAX_PROGRAMS ≡ 256 }
    ensures programs_behind_a_catalogue { MAX_SPARE ≡ 16 }
    ensures spare_of_any_store { MOST_SPARE ≡ 4096 }
    ensures bytes_of_an_installed_program_of_any_store { MOST_LONG ≡ 16384 }
    ensures slots_of_an_installed_program { MAX_INSTALLED_SLOTS ≡ 24 }
    ensures bytes_of_a_path { PATH_BYTES ≡ 255 }
{}

/// A line means a map, a program or a comment exactly where it is spelled so.
pub fn each_line_is_its_spelling()
    ensures spelling { EachLineIsItsSpelling }
{}

/// The loading asks for the files that are listed, and of these each is the last word of a line of a program.
pub fn names_are_files()
    ensures files { NamesAreFiles }
    ensures no_other { NoOtherFile }
{}

/// A manifest loads as a catalogue exactly where its lines are that catalogue's maps and then its programs.
pub fn loaded_is_offered()
    ensures offered { LoadedIsOffered }
{}

/// Wider limits change nothing of a manifest that is good.
pub fn wider_limits_keep_what_is_good()
    ensures wider { WiderLimitsKeepWhatIsGood }
{}

/// A manifest is refused exactly at its first bad line.
pub fn refused_is_first_bad()
    ensures first { RefusedIsFirstBad }
{}
