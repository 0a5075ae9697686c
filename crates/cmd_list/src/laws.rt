//! Laws of the definitions. Each function does nothing; its contract is the law.

ghost use Rattle.std.specs.Prelude.{◌≡◌, ◌≤◌, ◌++◌, ℕ, List, length};
ghost use Rattle.bpf_asm.specs.Meaning.{IsMeaning};
ghost use Rattle.bpf_code.specs.declared.instr.Instr.{Instr};
ghost use Rattle.bpf_interp.specs.Value.{Value};
ghost use Rattle.bpf_verify.specs.Accepted.{IsAccepted};
ghost use Rattle.cmd_list.specs.ListedProgram.{IsListText, ListsLine};
ghost use Rattle.cmd_list.specs.LongestRun.{IsLongestRun};
ghost use Rattle.cmd_list.specs.OneOutput.{HasOneOutput};
ghost use Rattle.cmd_list.specs.Trace.{IsTraceText, PrintsTrace};
ghost use Rattle.text_io.specs.Lines.{lines_of};
ghost use Rattle.text_io.specs.declared.ending.Done.{Done as TheDone};
ghost use Rattle.text_io.specs.declared.ending.Done.TheVariants.{Whole};
ghost use Rattle.cmd_programs.specs.Check.{PrintsSource, accepted_text};
ghost use Rattle.cmd_programs.specs.Eval.{PrintsValue};

/// The last line of a cell's trace is the answer of `upc eval` to that cell.
pub fn a_trace_ends_with_the_answer_of_eval()
    ensures { (code : List Instr) (octets text : List ℕ) → PrintsTrace code octets text
        → (lines answer : List ℕ) × (text ≡ lines ++ answer) × PrintsValue code octets answer }
{}

/// Each input has a trace.
pub fn every_input_has_a_trace()
    ensures { (octets : List ℕ) → (text : List ℕ) × (done : TheDone) × IsTraceText octets text done }
{}

/// An input has at most one trace, with one end.
pub fn an_input_has_one_trace()
    ensures { HasOneOutput IsTraceText }
{}

/// The output of a whole run of `list` lists the program of a line of the input, and is a source that means this program.
/// So `upc check` answers it with the octets of the program, unless it is over the limit of a source.
pub fn a_whole_listing_means_the_program()
    ensures { (input text : List ℕ) → IsListText input text Whole
        → (code : List Instr) × ListsLine (lines_of input) text code × IsMeaning text code
        × PrintsSource text (accepted_text code) Whole }
{}

/// Each input has an output of `list`.
pub fn every_input_has_a_listing()
    ensures { (octets : List ℕ) → (text : List ℕ) × (done : TheDone) × IsListText octets text done }
{}

/// An input has at most one output of `list`, with one end.
pub fn an_input_has_one_listing()
    ensures { HasOneOutput IsListText }
{}

/// An accepted code has one longest run, which begins at most as many instructions as the code has.
pub fn an_accepted_code_has_one_longest_run()
    ensures { (code : List Instr) → IsAccepted code
        → (most : ℕ) × IsLongestRun code most × (most ≤ length code)
        × ((other : ℕ) → IsLongestRun code other → other ≡ most) }
{}

/// On no cell does a code take more steps than its longest run begins instructions. A load from outside the cell and a
/// division by an X of 0 end a run early, and count as steps.
pub fn no_cell_takes_more_than_the_longest_run()
    ensures { (code : List Instr) (cell : List ℕ) (most value steps : ℕ)
        → IsLongestRun code most → Value code cell value steps → steps ≤ most }
{}
