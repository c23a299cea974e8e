/// What `--help` prints.
pub const HELP: &str = "\
usage: gtirb_a64 JOB NAME=VALUE..

Each job reads the files that its words name and writes one. The name - is standard input or output.

  recode in=FILE out=FILE
      read a GTIRB file and write it in its one canonical spelling
  check in=FILE [module=N] [plain=*] [plain=N,N..] [isa=N]
      say whether a module of a GTIRB file is a program, and how much there is of everything, or the
      first thing that is wrong with it; plain= names the flags of expressions that change nothing
  rewrite in=FILE out=FILE [patch=FILE] [module=N] [plain=..] [isa=N]
      write the GTIRB file with instructions and functions inserted in a module, which the text that
      patch= names says (docs/PATCHES.md), its edges and tables repaired
  layout in=FILE out=FILE [patch=FILE] [module=N] [plain=..] [isa=N]
      write the default layout of a module's program, with its patches: where its byte intervals and
      the stack lie
  print in=FILE out=FILE [patch=FILE] [module=N] [plain=..] [isa=N]
      write a module, with its patches, as assembly text (docs/ASSEMBLY.md)
  link in=FILE out=IMAGE [patch=FILE] [layout=FILE] [module=N] [plain=..] [isa=N]
      link a module's program, with its patches, to a bare image, under a layout or the default one
  run in=IMAGE out=FILE [input=FILE] [steps=N]
      run a bare image for at most N instructions (1,000,000 unless said) and write its output
  sim in=FILE out=FILE [patch=FILE] [input=FILE] [steps=N] [layout=FILE] [module=N] [plain=..]
      [isa=N]
      run a module's program beside its patches without making an address a number, where it can be
      linked, and write its output; says where and why the program leaves what every layout shares (docs/STUCK.md)
  demo seed=N blocks=N out=FILE
      make a program of so many blocks (1 to 100,000) that add constants, which begin at the seed, and
      write it as a GTIRB file

gtirb_a64 --help prints this, gtirb_a64 --version the version. The answer goes to standard error as
one line; README.md, \"Answers and exit statuses\", explains it and each status.
";

/// What `--version` prints.
pub const VERSION: &str = "gtirb_a64 0.1.0\n";

/// What the words print, where they ask for nothing else.
pub fn asked_text(word: &str) -> Option<&'static str> {
    match word {
        "--help" => Some(HELP),
        "--version" => Some(VERSION),
        _ => None,
    }
}
