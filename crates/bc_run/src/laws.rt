//! The laws of runs by one caller.

ghost use Rattle.std.specs.Prelude.{true, false, ◌∷◌, [], codes, Some, None};
ghost use Rattle.clap.specs.declared.error.kind.ErrorKind.TheVariants.{ArgumentConflict, DisplayHelp, InvalidValue};
ghost use Rattle.clap.specs.declared.error.kind.ErrorKind.TheVariants.{MissingRequiredArgument, UnknownArgument};
ghost use Rattle.clap.specs.declared.error.kind.ErrorKind.TheVariants.{TooManyValues, ValueValidation};
ghost use Rattle.bc_compose.specs.ComposedRun.{SerialRunsAgree};
ghost use Rattle.bc_run.specs.Laws.{AreRefused, MadeLinesAgree, MakeMeans, MakeRefuses, Mean, WrittenTextsAgree};
ghost use Rattle.bc_run.specs.Laws.{after_serial, after_threads};

use bc_script::no_proper_prefix;

/// Script, image and number of shards decide the whole report of [`serial`](crate::serial) and the
/// image that it leaves; and words of `serial`, files and the text of a script decide the report
/// that [`run`](crate::run) writes where it answers `Ok`, and the image that it leaves.
pub fn serial_runs_agree()
    ensures reports { SerialRunsAgree }
    ensures texts { WrittenTextsAgree }
{
    bc_compose::serial_runs_agree();
    no_proper_prefix();
}

/// The first number of `make` decides its line, whatever the keyslots and shards, and whether its
/// sections are carried out one after the other or all at once.
pub fn make_lines_agree()
    ensures { MadeLinesAgree }
{}

/// What clap makes of some words after `serial` or `threads`: with which options it takes them, or
/// why it refuses them.
pub fn words_by_example()
    ensures none { Mean (after_serial []) (record { image = None; out = None; shards = 1; at_once = false }) }
    ensures all { Mean
        (after_serial (codes "--shards=2" ∷ codes "--out" ∷ codes "new" ∷ codes "--image" ∷ codes "old" ∷ []))
        (record { image = Some (codes "old"); out = Some (codes "new"); shards = 2; at_once = false }) }
    ensures zeros_before { Mean (after_serial (codes "--shards" ∷ codes "02" ∷ []))
        (record { image = None; out = None; shards = 2; at_once = false }) }
    ensures plus_before { Mean (after_serial (codes "--shards=+2" ∷ []))
        (record { image = None; out = None; shards = 2; at_once = false }) }
    ensures most { Mean (after_serial (codes "--shards" ∷ codes "64" ∷ []))
        (record { image = None; out = None; shards = 64; at_once = false }) }
    ensures no_name { Mean (after_serial (codes "--image=" ∷ []))
        (record { image = Some []; out = None; shards = 1; at_once = false }) }
    ensures end { Mean (after_serial (codes "--" ∷ []))
        (record { image = None; out = None; shards = 1; at_once = false }) }
    ensures no_shards { AreRefused (after_serial (codes "--shards" ∷ codes "0" ∷ [])) ValueValidation }
    ensures too_many { AreRefused (after_serial (codes "--shards" ∷ codes "65" ∷ [])) ValueValidation }
    ensures no_number { AreRefused (after_serial (codes "--shards" ∷ codes "two" ∷ [])) ValueValidation }
    ensures no_value { AreRefused (after_serial (codes "--image" ∷ [])) InvalidValue }
    ensures twice { AreRefused (after_serial (codes "--out=a" ∷ codes "--out=a" ∷ [])) ArgumentConflict }
    ensures dash { AreRefused (after_serial (codes "--image" ∷ codes "-x" ∷ [])) UnknownArgument }
    ensures help { AreRefused (after_serial (codes "--help" ∷ [])) DisplayHelp }
    ensures version { AreRefused (after_serial (codes "--version" ∷ [])) UnknownArgument }
    ensures stray { AreRefused (after_serial (codes "old" ∷ [])) UnknownArgument }
    ensures threads { Mean (after_threads []) (record { image = None; out = None; shards = 1; at_once = true }) }
    ensures threads_all { Mean (after_threads (codes "--out=new" ∷ codes "--shards" ∷ codes "2" ∷ []))
        (record { image = None; out = Some (codes "new"); shards = 2; at_once = true }) }
    ensures threads_most { AreRefused (after_threads (codes "--shards" ∷ codes "65" ∷ [])) ValueValidation }
    ensures helpers { AreRefused (after_threads (codes "--helpers" ∷ codes "0" ∷ [])) UnknownArgument }
{}

/// The same for some words after `make`.
pub fn make_words_by_example()
    ensures number { MakeMeans (codes "8" ∷ []) (record { n = 8; slots = 1; shards = 8; at_once = false }) }
    ensures most { MakeMeans (codes "2048" ∷ []) (record { n = 2048; slots = 1; shards = 8; at_once = false }) }
    ensures zeros_before { MakeMeans (codes "08" ∷ []) (record { n = 8; slots = 1; shards = 8; at_once = false }) }
    ensures options { MakeMeans (codes "--slots" ∷ codes "32" ∷ codes "8" ∷ codes "--shards=2" ∷ [])
        (record { n = 8; slots = 32; shards = 2; at_once = false }) }
    ensures threads { MakeMeans (codes "8" ∷ codes "--threads" ∷ [])
        (record { n = 8; slots = 1; shards = 8; at_once = true }) }
    ensures threads_before { MakeMeans (codes "--threads" ∷ codes "--shards=1" ∷ codes "8" ∷ [])
        (record { n = 8; slots = 1; shards = 1; at_once = true }) }
    ensures no_number { MakeRefuses [] MissingRequiredArgument }
    ensures zero { MakeRefuses (codes "0" ∷ []) ValueValidation }
    ensures too_many { MakeRefuses (codes "2049" ∷ []) ValueValidation }
    ensures no_slots { MakeRefuses (codes "8" ∷ codes "--slots" ∷ codes "0" ∷ []) ValueValidation }
    ensures too_many_slots { MakeRefuses (codes "8" ∷ codes "--slots" ∷ codes "33" ∷ []) ValueValidation }
    ensures too_many_shards { MakeRefuses (codes "8" ∷ codes "--shards" ∷ codes "65" ∷ []) ValueValidation }
    ensures two_numbers { MakeRefuses (codes "8" ∷ codes "9" ∷ []) UnknownArgument }
    ensures image { MakeRefuses (codes "8" ∷ codes "--image" ∷ codes "old" ∷ []) UnknownArgument }
    ensures threads_twice { MakeRefuses (codes "8" ∷ codes "--threads" ∷ codes "--threads" ∷ []) ArgumentConflict }
    ensures threads_of_value { MakeRefuses (codes "8" ∷ codes "--threads=2" ∷ []) TooManyValues }
    ensures helpers { MakeRefuses (codes "8" ∷ codes "--helpers" ∷ codes "0" ∷ []) UnknownArgument }
{}
