//! The texts of `--help` and `--version`.
ghost use Rattle.std.specs.Prelude.{◌≡◌};
ghost use Rattle.label_words.specs.Help.{help_text, version_line};

/// The text of `--help`.
const HELP: &str = "\
usage: qrlabel [OPTIONS] [TEXT]

Draws the QR code of TEXT, of a file, or of standard input.
The value of an option is the next word, or in its own word: -s 4, -s4, --scale=4.

Input and output:
  -r, --read FILE       read FILE, or standard input if it is -; default: standard
                        input, if there is no TEXT
  -o, --output FILE     write FILE, once it is whole, or standard output if it is -;
                        default: standard output
      --lines           a label of each line, for terminal, pbm, escpos and zpl, or a
                        page of each, for pdf; or each in a file that is named as in
                        label-%05d.png
      --first N         number of the first line, 0 to 1000000000; default: 1
  -k, --keep-going      leave out lines that can't be labels, and report each
      --keep-newline    keep the newline at the end of a text that is read
      --split           as many labels as it takes, at most 16, where one can't hold
                        the input; names of files as for --lines, and formats, but
                        not pages
      --allow-empty     draw an input or a line without any bytes, too
      --                words after it are no options: TEXT may begin with '-'

Content:
  -c, --content KIND    auto, text, bytes, gs1, gs1-unchecked, link, micro or
                        micro-bytes; default: auto, which is the smallest symbol of
                        a text beyond ASCII in UTF-8, else bytes; text is in UTF-8;
                        gs1 takes elements that the table of identifiers allows,
                        link makes a GS1 Digital Link of them; micro is for ASCII
                        and Kanji
      --no-kanji        no pairs of bytes in the Kanji mode, which some readers show
                        as other characters (with -c bytes)
      --domain DOMAIN   domain of the link; default: id.gs1.org
      --upper           scheme and host of the link in capitals, which takes a smaller
                        symbol: HTTPS://ID.GS1.ORG/01/09506000134352
  -l, --level LEVEL     L, M, Q or H: about 7, 15, 25 or 30 percent can be
                        damaged; default: M; micro has no H
      --strongest       raise the level as far as the symbol stays as small
      --min-version N   1 to 40; default: 1
      --max-version N   1 to 40; default: 40

Picture:
  -f, --format FORMAT   terminal, svg, png, pbm, eps, pdf, escpos or zpl; default: by
                        the ending of the output's name (.txt for terminal),
                        else terminal on a terminal, and svg elsewhere
  -s, --scale N         pixels a module, 1 to 64; default: 8, of terminal 1
  -q, --quiet N         light margin in modules, 0 to 16; default: 4, of micro 2
      --module-mm MM    size of a module, 0.05 to 10 (svg, png, eps, pdf; with --dpi
                        or --dpmm png, zpl, escpos: the nearest whole dots)
      --dpi N           dots an inch, 50 to 2400, as 203.2 (png, zpl; with --module-mm
                        also escpos)
      --dpmm N          dots a millimetre in place of --dpi, 2 to 94: 8 are --dpi 203.2
      --rotate DEGREES  turn the symbol clockwise: 0, 90, 180 or 270; default: 0
      --inverted        for light text on a dark screen (terminal)
      --title TITLE     title of the picture (svg, png, eps, pdf)
      --dark COLOR      #rrggbb or one of CSS's sixteen names (svg, png, eps, pdf)
      --light COLOR     the same, or transparent; default: black on white
      --any-colors      take colors that readers may not tell apart
      --hri             write the elements below it, as (01)09506000134352(10)ABC (svg,
                        png, eps, zpl, pdf, terminal; with -c gs1, gs1-unchecked, link)
      --at X,Y          position on the label in dots, 0 to 18000 (zpl)
      --copies N        how often the printer prints it, 1 to 99999999 (zpl)
      --compressed      write it in compressed fields (zpl)
      --feed N          lines of paper to feed after it, 0 to 255 (escpos)
      --cut             cut the paper after it (escpos)

      --info            print version, level, mask, segments and size of the symbol on
                        standard output, and draw nothing; of GS1 elements also the
                        version of their link, and of a link that of its elements
  -v, --verbose         draw, and print them on standard error
  -h, --help            show this text
  -V, --version         show the version

Examples:
  qrlabel https://example.org
  qrlabel -o hello.png hello
  qrlabel -c gs1 --module-mm 0.5 -o pallet.svg '(01)09506000134352(10)ABC'
  qrlabel --strongest -f zpl --at 40,40 -r address.txt > label.zpl
  qrlabel --lines -f zpl -r addresses.txt > /dev/usb/lp0
  qrlabel --lines -o label-%05d.png -r addresses.txt

The exit status is 0 if all was written, 1 after an error or if a line was left out,
and 2 for wrong words.
";

/// Returns the text of `--help`.
#[tactic(auto, unfolding(crate::specs::Help::help_text))]
pub fn help_text() -> &'static str
    ensures { result.now ≡ help_text }
{
    HELP
}

/// Returns the text of `--version`.
pub fn version_text() -> &'static str
    ensures { result.now ≡ version_line }
{
    "qrlabel 0.5.0\n"
}
