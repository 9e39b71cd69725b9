// Prints the reports of four logs: a good one, one that is cut inside a frame, a damaged one, and one with names of 33 and 64 bytes.
#![tactic(auto)]

fn main(rt: HostRuntime) {
    let mut buffer = [0u8; log_files::LOG_ROOM];
    log_files::print_report(&rt, b"catalogue", b"good.log", &mut buffer);
    log_files::print_report(&rt, b"catalogue", b"cut.log", &mut buffer);
    log_files::print_report(&rt, b"catalogue", b"damaged.log", &mut buffer);
    log_files::print_report(&rt, b"catalogue", b"long_names.log", &mut buffer);
}
