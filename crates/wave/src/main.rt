// The wave program: reads a circuit and its words from standard input, and prints lane 0 of each net. Where the input cannot
// be read it prints nothing, and standard error says why.
#![tactic(auto)]

// One byte more than an input may have is read, which is enough to tell.
fn main(rt: HostRuntime) {
    let mut input = [0u8; 4097];
    let mut output = [0u8; waveform::BUFFER_LENGTH];
    let Ok(n) = streams::read_input(&rt, &mut input) else {
        return;
    };
    if let Ok(length) = waveform::wave(&input[..n], &mut output) {
        let _ = streams::write_output(&rt, &output[..length]);
    }
}
