//! What stands behind the tables: it makes what they say, runs the scripts and tells the outcome.

/// The text behind the tables, which is the same for each plan.
pub const ENGINE: &[u8] = b"#define LAB_ROWS(table)\t((int)ARRAY_SIZE(table) - 1)

/* Behind the plan's tables the text is the same in each module. */

struct lab_node {
\tstruct device dev;
\tconst struct lab_device *row;
\tconst int *idle;\t/* the codes that are still to be answered */
\tconst int *suspend;
\tconst int *resume;
};

struct lab_thread {
\tconst struct lab_caller *row;
\tstruct task_struct *task;
\tstruct completion done;
\tunsigned int answered;\t/* how many of its commands have returned */
\tint *codes;\t\t/* what they answered */
};

static struct generic_pm_domain lab_genpds[ARRAY_SIZE(lab_domains)];
static struct lab_node *lab_nodes[ARRAY_SIZE(lab_devices)];
static struct lab_thread lab_threads[ARRAY_SIZE(lab_callers)];
static bool lab_starts_on[ARRAY_SIZE(lab_domains)];
static int lab_genpd_count;

static bool lab_is_running;\t/* callbacks of the set-up are not the plan's */
static atomic_t lab_sleepers = ATOMIC_INIT(0);
static unsigned long lab_last_step;\t/* in jiffies */

/* The devices that were not released yet, and one for the module. */
static atomic_t lab_unreleased = ATOMIC_INIT(1);
static DECLARE_COMPLETION(lab_released);

/*
 * trace_printk() puts the name of the function that it stands in before the text. So these names
 * are those of the events.
 */
static noinline __noclone void pm_call(const char *call)
{
\ttrace_printk(\"%s\\n\", call);
}

static noinline __noclone void pm_ret(const char *ret, int code)
{
\ttrace_printk(\"%s %d\\n\", ret, code);
}

static noinline __noclone void pm_begin(const char *device, const char *callback)
{
\ttrace_printk(\"%s %s begin\\n\", device, callback);
}

static noinline __noclone void pm_end(const char *device, const char *callback, int code)
{
\ttrace_printk(\"%s %s end %d\\n\", device, callback, code);
}

static noinline __noclone void pm_domain(const char *domain, const char *state)
{
\ttrace_printk(\"%s %s\\n\", domain, state);
}

static noinline __noclone void pm_lab(const char *line)
{
\ttrace_printk(\"%s\\n\", line);
}

/* Writes a line of the outcome into the trace and into the log. */
static __printf(1, 2) void lab_tell(const char *fmt, ...)
{
\tchar line[128];
\tva_list args;

\tva_start(args, fmt);
\tvscnprintf(line, sizeof(line), fmt, args);
\tva_end(args);
\tpm_lab(line);
\tpr_info(\"%s\\n\", line);
}

static void lab_step(void)
{
\tWRITE_ONCE(lab_last_step, jiffies);
}

/* Whether nothing happened for so long, while nobody slept. */
static bool lab_is_stuck(unsigned int seconds)
{
\tif (atomic_read(&lab_sleepers))
\t\tlab_step();
\treturn time_after(jiffies, READ_ONCE(lab_last_step) + seconds * HZ);
}

static void lab_sleep(unsigned int ms)
{
\tktime_t until = ktime_add_ms(ktime_get(), ms);

\tif (!ms)
\t\treturn;
\tatomic_inc(&lab_sleepers);
\tdo {
\t\tset_current_state(TASK_IDLE);
\t} while (schedule_hrtimeout(&until, HRTIMER_MODE_ABS));
\tlab_step();
\tatomic_dec(&lab_sleepers);
}

static struct lab_node *to_lab_node(const struct device *dev)
{
\treturn container_of(dev, struct lab_node, dev);
}

static int lab_callback(struct lab_node *node, const char *word,
\t\t\tconst struct lab_callback *row, const int **codes)
{
\tint code = **codes;

\tif (!READ_ONCE(lab_is_running))
\t\treturn 0;
\tif (code == LAB_NO_MORE)
\t\tcode = 0;
\telse
\t\t(*codes)++;
\tlab_step();
\tpm_begin(node->row->name, word);
\tlab_sleep(row->ms);
\tif (node->row->marks_busy)
\t\tpm_runtime_mark_last_busy(&node->dev);
\tpm_end(node->row->name, word, code);
\treturn code;
}

static int lab_runtime_idle(struct device *dev)
{
\tstruct lab_node *node = to_lab_node(dev);

\treturn lab_callback(node, \"idle\", &node->row->idle, &node->idle);
}

static int lab_runtime_suspend(struct device *dev)
{
\tstruct lab_node *node = to_lab_node(dev);

\treturn lab_callback(node, \"suspend\", &node->row->suspend, &node->suspend);
}

static int lab_runtime_resume(struct device *dev)
{
\tstruct lab_node *node = to_lab_node(dev);

\treturn lab_callback(node, \"resume\", &node->row->resume, &node->resume);
}

static const struct dev_pm_ops lab_ops_idle = {
\tSET_RUNTIME_PM_OPS(lab_runtime_suspend, lab_runtime_resume, lab_runtime_idle)
};

static const struct dev_pm_ops lab_ops = {
\tSET_RUNTIME_PM_OPS(lab_runtime_suspend, lab_runtime_resume, NULL)
};

static struct bus_type lab_bus;

static struct device_driver lab_driver_idle = {
\t.name = \"pm_lab_idle\",
\t.bus = &lab_bus,
\t.owner = THIS_MODULE,
\t.pm = &lab_ops_idle,
};

static struct device_driver lab_driver = {
\t.name = \"pm_lab\",
\t.bus = &lab_bus,
\t.owner = THIS_MODULE,
\t.pm = &lab_ops,
};

#if LINUX_VERSION_CODE < KERNEL_VERSION(6, 11, 0)
static int lab_match(struct device *dev, struct device_driver *driver)
#else
static int lab_match(struct device *dev, const struct device_driver *driver)
#endif
{
\treturn driver == (to_lab_node(dev)->row->has_idle ? &lab_driver_idle : &lab_driver);
}

static struct bus_type lab_bus = {
\t.name = \"pm_lab\",
\t.match = lab_match,
};

static int lab_power_on(struct generic_pm_domain *genpd)
{
\tif (READ_ONCE(lab_is_running))
\t\tpm_domain(genpd->name, \"on\");
\treturn 0;
}

static int lab_power_off(struct generic_pm_domain *genpd)
{
\tif (READ_ONCE(lab_is_running))
\t\tpm_domain(genpd->name, \"off\");
\treturn 0;
}

/* A domain is static: there is nothing to free. */
static void lab_release_domain(struct device *dev)
{
}

/* A domain starts on where it, or one below it, is always on. Parents stand first. */
static void lab_find_on(void)
{
\tint i;

\tfor (i = LAB_ROWS(lab_domains) - 1; i >= 0; i--) {
\t\tlab_starts_on[i] |= lab_domains[i].always_on;
\t\tif (lab_starts_on[i] && lab_domains[i].parent >= 0)
\t\t\tlab_starts_on[lab_domains[i].parent] = true;
\t}
}

static int lab_add_domain(int place)
{
\tconst struct lab_domain *row = &lab_domains[place];
\tstruct generic_pm_domain *genpd = &lab_genpds[place];
\tint ret;

\tgenpd->name = row->name;
\tgenpd->power_on = lab_power_on;
\tgenpd->power_off = lab_power_off;
\tgenpd->dev.release = lab_release_domain;
\tif (row->always_on)
\t\tgenpd->flags |= GENPD_FLAG_ALWAYS_ON;
\tret = pm_genpd_init(genpd, NULL, !lab_starts_on[place]);
\tif (ret)
\t\treturn ret;
\tif (row->parent >= 0) {
\t\tret = pm_genpd_add_subdomain(&lab_genpds[row->parent], genpd);
\t\tif (ret)
\t\t\tpm_genpd_remove(genpd);
\t}
\treturn ret;
}

static int lab_add_domains(void)
{
\tint ret;

\tlab_find_on();
\twhile (lab_genpd_count < LAB_ROWS(lab_domains)) {
\t\tret = lab_add_domain(lab_genpd_count);
\t\tif (ret)
\t\t\treturn ret;
\t\tlab_genpd_count++;
\t}
\treturn 0;
}

static void lab_remove_domains(void)
{
\twhile (lab_genpd_count > 0) {
\t\tstruct generic_pm_domain *genpd = &lab_genpds[--lab_genpd_count];
\t\tint parent = lab_domains[lab_genpd_count].parent;

\t\tif (parent >= 0)
\t\t\tpm_genpd_remove_subdomain(&lab_genpds[parent], genpd);
\t\tpm_genpd_remove(genpd);
\t}
}

static void lab_count_release(void)
{
\tif (atomic_dec_and_test(&lab_unreleased))
\t\tcomplete(&lab_released);
}

static void lab_release(struct device *dev)
{
\tkfree(to_lab_node(dev));
\tlab_count_release();
}

static int lab_add_device(int place)
{
\tconst struct lab_device *row = &lab_devices[place];
\tstruct lab_node *node = kzalloc(sizeof(*node), GFP_KERNEL);
\tint ret;

\tif (!node)
\t\treturn -ENOMEM;
\tnode->row = row;
\tnode->idle = row->idle.codes;
\tnode->suspend = row->suspend.codes;
\tnode->resume = row->resume.codes;
\tdevice_initialize(&node->dev);
\tatomic_inc(&lab_unreleased);
\tnode->dev.bus = &lab_bus;
\tnode->dev.release = lab_release;
\t/* A root has no parent, not even that of the bus. */
\tif (row->parent >= 0)
\t\tnode->dev.parent = &lab_nodes[row->parent]->dev;
\tif (row->no_callbacks)
\t\tpm_runtime_no_callbacks(&node->dev);
\tpm_suspend_ignore_children(&node->dev, row->ignore_children);
\tret = dev_set_name(&node->dev, \"%s\", row->name);
\tif (!ret)
\t\tret = device_add(&node->dev);
\tif (ret) {
\t\tput_device(&node->dev);
\t\treturn ret;
\t}
\t/* A device comes to its domain before it is bound. */
\tif (row->domain >= 0) {
\t\tret = pm_genpd_add_device(&lab_genpds[row->domain], &node->dev);
\t\tif (ret) {
\t\t\tdevice_unregister(&node->dev);
\t\t\treturn ret;
\t\t}
\t}
\tlab_nodes[place] = node;
\treturn 0;
}

static int lab_add_devices(void)
{
\tint i, ret;

\tfor (i = 0; i < LAB_ROWS(lab_devices); i++) {
\t\tret = lab_add_device(i);
\t\tif (ret)
\t\t\treturn ret;
\t}
\treturn 0;
}

/* Their links go with the devices. */
static void lab_remove_devices(void)
{
\tint i;

\tfor (i = LAB_ROWS(lab_devices) - 1; i >= 0; i--) {
\t\tstruct lab_node *node = lab_nodes[i];

\t\tif (!node)
\t\t\tcontinue;
\t\tif (node->row->domain >= 0)
\t\t\tpm_genpd_remove_device(&node->dev);
\t\tdevice_unregister(&node->dev);
\t}
\t/* A link lets go of its devices later. */
\tlab_count_release();
\twait_for_completion(&lab_released);
}

static void lab_disable_devices(void)
{
\tint i;

\tfor (i = LAB_ROWS(lab_devices) - 1; i >= 0; i--)
\t\tif (pm_runtime_enabled(&lab_nodes[i]->dev))
\t\t\tpm_runtime_disable(&lab_nodes[i]->dev);
}

static int lab_bind_devices(void)
{
\tint i, ret;

\tret = driver_register(&lab_driver_idle);
\tif (ret)
\t\treturn ret;
\tret = driver_register(&lab_driver);
\tif (ret)
\t\tgoto unregister_idle;
\tfor (i = 0; i < LAB_ROWS(lab_devices); i++) {
\t\tif (!lab_nodes[i]->dev.driver) {
\t\t\tret = -ENODEV;
\t\t\tgoto unregister;
\t\t}
\t}
\treturn 0;

unregister:
\tdriver_unregister(&lab_driver);
unregister_idle:
\tdriver_unregister(&lab_driver_idle);
\treturn ret;
}

static void lab_unbind_devices(void)
{
\tdriver_unregister(&lab_driver);
\tdriver_unregister(&lab_driver_idle);
}

static bool lab_is_pm_runtime(int consumer, int supplier)
{
\tint i;

\tfor (i = 0; i < LAB_ROWS(lab_links); i++)
\t\tif (lab_links[i].consumer == consumer && lab_links[i].supplier == supplier)
\t\t\treturn lab_links[i].pm_runtime;
\treturn true;
}

static int lab_add_link(int consumer, int supplier)
{
\tu32 flags = DL_FLAG_STATELESS;

\tif (lab_is_pm_runtime(consumer, supplier))
\t\tflags |= DL_FLAG_PM_RUNTIME;
\tif (!device_link_add(&lab_nodes[consumer]->dev, &lab_nodes[supplier]->dev, flags))
\t\treturn -EINVAL;
\treturn 0;
}

static int lab_add_links(void)
{
\tint i, ret;

\tfor (i = 0; i < LAB_ROWS(lab_links); i++) {
\t\tif (lab_links[i].later)
\t\t\tcontinue;
\t\tret = lab_add_link(lab_links[i].consumer, lab_links[i].supplier);
\t\tif (ret)
\t\t\treturn ret;
\t}
\treturn 0;
}

/* What a helper answers, or 0 where it answers nothing. */
static int lab_run(const struct lab_command *command)
{
\tstruct lab_node *node = lab_nodes[command->device];
\tstruct device *dev = node ? &node->dev : NULL;\t/* a delay needs none */
\tint number = command->number;

\tswitch (command->helper) {
\tcase LAB_END:
\t\tbreak;
\tcase LAB_get_sync:
\t\treturn pm_runtime_get_sync(dev);
\tcase LAB_get:
\t\treturn pm_runtime_get(dev);
\tcase LAB_get_noresume:
\t\tpm_runtime_get_noresume(dev);
\t\tbreak;
\tcase LAB_get_if_in_use:
\t\treturn pm_runtime_get_if_in_use(dev);
\tcase LAB_get_if_active:
#if LINUX_VERSION_CODE < KERNEL_VERSION(6, 9, 0)
\t\treturn pm_runtime_get_if_active(dev, true);
#else
\t\treturn pm_runtime_get_if_active(dev);
#endif
\tcase LAB_resume:
\t\treturn pm_runtime_resume(dev);
\tcase LAB_request_resume:
\t\treturn pm_request_resume(dev);
\tcase LAB_put:
\t\treturn pm_runtime_put(dev);
\tcase LAB_put_sync:
\t\treturn pm_runtime_put_sync(dev);
\tcase LAB_put_noidle:
\t\tpm_runtime_put_noidle(dev);
\t\tbreak;
\tcase LAB_put_autosuspend:
\t\treturn pm_runtime_put_autosuspend(dev);
\tcase LAB_put_sync_suspend:
\t\treturn pm_runtime_put_sync_suspend(dev);
\tcase LAB_put_sync_autosuspend:
\t\treturn pm_runtime_put_sync_autosuspend(dev);
\tcase LAB_idle:
\t\treturn pm_runtime_idle(dev);
\tcase LAB_request_idle:
\t\treturn pm_request_idle(dev);
\tcase LAB_suspend:
\t\treturn pm_runtime_suspend(dev);
\tcase LAB_autosuspend:
\t\treturn pm_runtime_autosuspend(dev);
\tcase LAB_request_autosuspend:
\t\treturn pm_request_autosuspend(dev);
\tcase LAB_schedule_suspend:
\t\treturn pm_schedule_suspend(dev, number);
\tcase LAB_enable:
\t\tpm_runtime_enable(dev);
\t\tbreak;
\tcase LAB_disable:
\t\tpm_runtime_disable(dev);
\t\tbreak;
\tcase LAB_barrier:
\t\treturn pm_runtime_barrier(dev);
\tcase LAB_set_active:
\t\treturn pm_runtime_set_active(dev);
\tcase LAB_set_suspended:
\t\treturn pm_runtime_set_suspended(dev);
\tcase LAB_allow:
\t\tpm_runtime_allow(dev);
\t\tbreak;
\tcase LAB_forbid:
\t\tpm_runtime_forbid(dev);
\t\tbreak;
\tcase LAB_mark_last_busy:
\t\tpm_runtime_mark_last_busy(dev);
\t\tbreak;
\tcase LAB_use_autosuspend:
\t\tpm_runtime_use_autosuspend(dev);
\t\tbreak;
\tcase LAB_dont_use_autosuspend:
\t\tpm_runtime_dont_use_autosuspend(dev);
\t\tbreak;
\tcase LAB_set_autosuspend_delay:
\t\tpm_runtime_set_autosuspend_delay(dev, number);
\t\tbreak;
\tcase LAB_delay:
\t\tlab_sleep(number);
\t\tbreak;
\tcase LAB_ignore_children:
\t\tpm_suspend_ignore_children(dev, number);
\t\tbreak;
\tcase LAB_link_add:
\t\treturn lab_add_link(command->device, number);
\tcase LAB_link_del:
\t\tdevice_link_remove(dev, &lab_nodes[number]->dev);
\t\tbreak;
\t}
\treturn 0;
}

static int lab_thread_fn(void *data)
{
\tstruct lab_thread *thread = data;
\tconst struct lab_command *command;

\tfor (command = thread->row->script; command->helper; command++) {
\t\tint code;

\t\tlab_step();
\t\tpm_call(command->call);
\t\tcode = lab_run(command);
\t\tpm_ret(command->ret, code);
\t\tlab_step();
\t\tthread->codes[thread->answered] = code;
\t\tsmp_store_release(&thread->answered, thread->answered + 1);
\t}
\tcomplete(&thread->done);
\treturn 0;
}

static int lab_add_thread(int place)
{
\tstruct lab_thread *thread = &lab_threads[place];
\tconst struct lab_command *command;
\tstruct task_struct *task;
\tsize_t count = 0;

\tthread->row = &lab_callers[place];
\tinit_completion(&thread->done);
\tfor (command = thread->row->script; command->helper; command++)
\t\tcount++;
\tthread->codes = kcalloc(count, sizeof(*thread->codes), GFP_KERNEL);
\tif (!thread->codes)
\t\treturn -ENOMEM;
\ttask = kthread_create(lab_thread_fn, thread, \"%s\", thread->row->name);
\tif (IS_ERR(task))
\t\treturn PTR_ERR(task);
\tthread->task = get_task_struct(task);
\treturn 0;
}

static int lab_add_threads(void)
{
\tint i, ret;

\tfor (i = 0; i < LAB_ROWS(lab_callers); i++) {
\t\tret = lab_add_thread(i);
\t\tif (ret)
\t\t\treturn ret;
\t}
\treturn 0;
}

/* Each has ended, or was never woken. */
static void lab_remove_threads(void)
{
\tint i;

\tfor (i = 0; i < LAB_ROWS(lab_callers); i++) {
\t\tif (lab_threads[i].task) {
\t\t\tkthread_stop(lab_threads[i].task);
\t\t\tput_task_struct(lab_threads[i].task);
\t\t}
\t\tkfree(lab_threads[i].codes);
\t}
}

static bool lab_thread_ends(struct lab_thread *thread)
{
\twhile (!wait_for_completion_timeout(&thread->done, HZ))
\t\tif (lab_is_stuck(60))
\t\t\treturn false;
\treturn true;
}

/* Wakes all callers, and tells whether all came to their ends. */
static bool lab_run_callers(void)
{
\tbool all = true;
\tint i;

\tlab_step();
\tfor (i = 0; i < LAB_ROWS(lab_callers); i++)
\t\twake_up_process(lab_threads[i].task);
\tfor (i = 0; i < LAB_ROWS(lab_callers); i++)
\t\tall &= lab_thread_ends(&lab_threads[i]);
\treturn all;
}

static bool lab_is_at_rest(struct device *dev)
{
\tstruct dev_pm_info *power = &dev->power;
\tunsigned long flags;
\tbool rests;

\tspin_lock_irqsave(&power->lock, flags);
\trests = !power->request_pending && !power->timer_expires && !power->idle_notification &&
\t\t(power->runtime_status == RPM_ACTIVE || power->runtime_status == RPM_SUSPENDED);
\tspin_unlock_irqrestore(&power->lock, flags);
\treturn rests;
}

static bool lab_all_rest(void)
{
\tint i;

\tfor (i = 0; i < LAB_ROWS(lab_devices); i++)
\t\tif (!lab_is_at_rest(&lab_nodes[i]->dev))
\t\t\treturn false;
\treturn true;
}

/*
 * Waits until no request, no timer and no transition is left. A timer may be armed for 1,000
 * seconds, and its slack is a fourth of them.
 */
static bool lab_settle(void)
{
\tdo {
\t\twhile (!lab_all_rest()) {
\t\t\tif (lab_is_stuck(1500))
\t\t\t\treturn false;
\t\t\tmsleep(10);
\t\t}
\t\tflush_workqueue(pm_wq);
\t} while (!lab_all_rest());
\treturn true;
}

static const char *lab_status(const struct device *dev)
{
\tswitch (dev->power.runtime_status) {
\tcase RPM_ACTIVE:
\t\treturn \"active\";
\tcase RPM_RESUMING:
\t\treturn \"resuming\";
\tcase RPM_SUSPENDED:
\t\treturn \"suspended\";
\tcase RPM_SUSPENDING:
\t\treturn \"suspending\";
\tdefault:
\t\treturn \"invalid\";
\t}
}

static void lab_tell_answers(struct lab_thread *thread)
{
\tunsigned int answered = smp_load_acquire(&thread->answered);
\tunsigned int i;

\tfor (i = 0; i < answered; i++)
\t\tlab_tell(\"answer %s %u %d\", thread->row->name, i + 1, thread->codes[i]);
\tif (thread->row->script[answered].helper)
\t\tlab_tell(\"hangs %s %u\", thread->row->name, answered + 1);
}

static void lab_tell_outcome(void)
{
\tint i;

\tfor (i = 0; i < LAB_ROWS(lab_callers); i++)
\t\tlab_tell_answers(&lab_threads[i]);
\tfor (i = 0; i < LAB_ROWS(lab_devices); i++) {
\t\tstruct device *dev = &lab_nodes[i]->dev;

\t\tlab_tell(\"end %s %s %d\", lab_devices[i].name, lab_status(dev),
\t\t\t atomic_read(&dev->power.usage_count));
\t}
\tlab_tell(\"done\");
}

static void lab_run_plan(void)
{
\tbool ends;

\tlab_tell(\"start\");
\tWRITE_ONCE(lab_is_running, true);
\tends = lab_run_callers() && lab_settle();
\tWRITE_ONCE(lab_is_running, false);
\tif (!ends) {
\t\t/* Something still runs in this module, and may do so for ever. */
\t\tpr_warn(\"the plan hangs, and the module stays\\n\");
\t\t__module_get(THIS_MODULE);
\t}
\tlab_tell_outcome();
}

static int __init lab_init(void)
{
\tint ret;

\tret = subsys_virtual_register(&lab_bus, NULL);
\tif (ret)
\t\treturn ret;
\tret = lab_add_domains();
\tif (ret)
\t\tgoto remove_domains;
\tret = lab_add_devices();
\tif (ret)
\t\tgoto remove_devices;
\tret = lab_bind_devices();
\tif (ret)
\t\tgoto remove_devices;
\tret = lab_add_links();
\tif (ret)
\t\tgoto unbind_devices;
\tret = lab_add_threads();
\tif (ret)
\t\tgoto remove_threads;
\tflush_workqueue(pm_wq);
\tlab_run_plan();
\treturn 0;

remove_threads:
\tlab_remove_threads();
unbind_devices:
\tlab_unbind_devices();
remove_devices:
\tlab_remove_devices();
remove_domains:
\tlab_remove_domains();
\tbus_unregister(&lab_bus);
\tpr_err(\"the plan can't be set up: %d\\n\", ret);
\treturn ret;
}

static void __exit lab_exit(void)
{
\tlab_remove_threads();
\tlab_disable_devices();
\tlab_unbind_devices();
\tlab_remove_devices();
\tlab_remove_domains();
\tbus_unregister(&lab_bus);
}

module_init(lab_init);
module_exit(lab_exit);
MODULE_DESCRIPTION(\"A plan of pm_top\");
MODULE_LICENSE(\"GPL\");
";
