//! What the grammar is for a command without options.
ghost use Rattle.std.specs.Prelude.{◌≡◌, ◌∷◌, IfSome, option_map};
ghost use Rattle.fx_arguments.specs.Command.{OnFile, command_of, on_file, texts};
ghost use Rattle.fx_arguments.specs.Plain.{files_among, one_file};

/// Each command that takes FILE alone takes exactly the one, and each word behind `--` is one.
pub fn one_file_law(name: &str, words: &[String])
    ensures { IfSome (on_file name.now)
        (λ command. command_of (name.now ∷ texts words.now)
        ≡ option_map (OnFile command) (one_file (files_among (texts words.now)))) }
{
    let _ = name;
    let _ = words;
}
